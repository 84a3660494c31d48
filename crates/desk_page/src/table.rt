// The table of a summary: a heading, a row for each pair, and how many records are of other pairs.
use crate::levels::Level;
use print::Settings;
use std::io;
use summary::{Line, Summary};

fn row(rt: &impl Print, line: Line) -> io::Result<()> {
    let Settings {
        mode,
        transmitter,
        parity,
    } = Settings::from(line.settings);
    let lowest = Level {
        settings: line.settings,
        level: line.lowest,
    };
    let highest = Level {
        settings: line.settings,
        level: line.highest,
    };
    print!(rt;
        "{:>7}  {mode:<10}  {transmitter} {parity:<4}",
        line.address
    )?;
    println!(rt;
        "{lowest:>19}{highest:>19}{:>8}{:>8}",
        line.good, line.faulty
    )
}

// A row for each line that is used.
fn rows(rt: &impl Print, page: Summary) -> io::Result<()> {
    let used = page.lines.len().min(page.count as usize);
    for line in &page.lines[..used] {
        row(rt, *line)?;
    }
    Ok(())
}

// At the end records that have no row, and why.
pub(crate) fn print(rt: &impl Print, page: Summary) -> io::Result<()> {
    println!(rt;
        "\naddress  mode        type                  lowest            highest    good  faulty"
    )?;
    rows(rt, page)?;
    println!(rt;
        "\nothers {}: records on no row, whose address and settings came when all 30 rows were taken",
        page.others
    )
}
