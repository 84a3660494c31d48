// The program "show_csv": the records of a card for a spreadsheet. The card comes on standard input; an argument is the day of minute 0, as 2026-11-01, and
// then times stand as dates, else as minutes. A line for each record goes to standard output, with commas between its fields. Its last line
// tells what came of it: "status 0" after the records, "status 1" where the input is no card, "status 2" where the argument is no
// day. Standard error has said why then.
#![tactic(auto)]

mod fields;
mod rows;

use print::Stop;
use std::io;
use std::rt::Env;

// Prints the records of the card on standard input.
fn show(rt: &(impl Env + Input + Print), err: &impl Print) -> Result<(), Stop> {
    let begin = print::day_argument(rt, 1)?;
    let mut bytes = [0u8; 65537];
    let card = print::read_card(err, &mut rt.reader(), b"standard input", &mut bytes)?;
    rows::heading(rt, begin)?;
    rows::all(rt, card.sheet, begin)?;
    Ok(())
}

fn main(rt: HostRuntime) -> io::Result<()> {
    let ended = show(&rt, &rt.stderr());
    print::end(&rt, &rt.stderr(), ended)
}
