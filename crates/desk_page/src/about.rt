// What is said of a card above the table: its name, what its slots hold, and its first and last minute.
use cards::Tally;
use std::{fmt, io};

// A minute, and the day and hour that it is where minute 0 begins day 0.
#[derive(Clone, Copy)]
struct Minute(u32);

impl fmt::Display for Minute {
    fn fmt<W: fmt::Write>(&self, f: &mut fmt::Formatter<W>) -> fmt::Result {
        let n = self.0;
        write!(
            f,
            "{n} (day {}, {:02}:{:02})",
            n / 1440,
            n / 60 % 24,
            n % 60
        )
    }
}

// The lowest and the highest minute, whatever the order in which the records stand.
fn minutes(rt: &impl Print, tally: Tally) -> io::Result<()> {
    if tally.records == 0 {
        return println!(rt; "  no record, and so no minute");
    }
    println!(rt;
        "  first minute {}, last minute {}",
        Minute(tally.first),
        Minute(tally.last)
    )
}

pub(crate) fn card(rt: &impl Print, name: &[u8], tally: Tally) -> io::Result<()> {
    let Tally {
        slots,
        records,
        spoiled,
        foreign,
        ..
    } = tally;
    rt.write_all(b"card ")?;
    rt.write_all(name)?;
    println!(rt; "\n  slots {slots}: records {records}, spoiled {spoiled}, foreign {foreign}")?;
    minutes(rt, tally)
}
