// What the programs of the desk share: an argument that is a day, the card that they go by, and the last line, which tells what came of it.
ghost use Rattle.std.specs.Prelude.{◌≡◌, ◌≤◌, IfOk, IfSome};
ghost use Rattle.calendar.specs.Days.{days_in};
ghost use Rattle.cards.specs.Tally.{tally_of};
ghost use Rattle.print.specs.declared.desk.Stop.TheVariants.{Failed};

use calendar::Day;
use cards::Tally;
use std::env::FillError;
use std::io::Read;
use std::rt::Env;
use std::{fmt, io};

// An argument that a program cannot go by.
#[derive(Clone, Copy)]
pub enum BadArgument {
    NoName,
    NoDay,
}

impl fmt::Display for BadArgument {
    fn fmt<W: fmt::Write>(&self, f: &mut fmt::Formatter<W>) -> fmt::Result {
        f.write_str(match self {
            BadArgument::NoName => "no name is given for the card",
            BadArgument::NoDay => "that is no day of the calendar; one is written 2026-11-01",
        })
    }
}

// Why a program has nothing more to print: an argument; a card that is none, or cards that cannot be joined, of which standard error has said
// why; input or output that failed.
#[derive(Drop)]
pub enum Stop {
    Argument(BadArgument),
    NoCard,
    Unjoined(u8),
    Failed(io::Error),
}

impl From<io::Error> for Stop {
    ghost from_gives = { λ why s. s ≡ Failed why };

    fn from(why: io::Error) -> Stop {
        Stop::Failed(why)
    }
}

// Argument i as the day of minute 0, as 2026-11-01, where there is one. An argument that is longer than a day is none.
pub fn day_argument(rt: &impl Env, i: usize) -> Result<Option<Day>, Stop>
    ensures { IfOk result (λ argument. IfSome argument (λ d. d.day ≤ days_in d.year d.month)) }
{
    let mut text = [0u8; 16];
    let day = match rt.arg(i, &mut text) {
        Ok(size) => calendar::day_in(&text[..size]),
        Err(FillError::TooLong) => None,
        Err(FillError::NotPresent) => return Ok(None),
    };
    let Some(day) = day else {
        return Err(Stop::Argument(BadArgument::NoDay));
    };
    Ok(Some(day))
}

// A card that was read: its sheet, and what the slots of that hold.
#[derive(Clone, Copy)]
pub struct Card<'a> {
    pub sheet: &'a [u8],
    pub tally: Tally,
}

// Reads a card into a buffer of one byte more than the largest sheet, so that a larger input is known. Where it is none, standard error says why.
pub fn read_card<'a, R: Read>(
    err: &impl Print,
    reader: &mut R,
    name: &[u8],
    bytes: &'a mut [u8],
) -> Result<Card<'a>, Stop>
    ensures { IfOk result (λ card. card.tally ≡ tally_of card.sheet.now) }
{
    let read = cards::read_card(reader, bytes);
    let sheet = &bytes[..read.unwrap_or(0)];
    let tally = cards::count(sheet);
    if cards::is_card(err, name, read, tally)? {
        Ok(Card { sheet, tally })
    } else {
        Err(Stop::NoCard)
    }
}

// The last line: "status" and the number of what came of the program. Of an argument it says before on standard error what is wrong.
pub fn end(rt: &impl Print, err: &impl Print, ended: Result<(), Stop>) -> io::Result<()> {
    let status = match ended {
        Ok(()) => 0,
        Err(Stop::NoCard) => 1,
        Err(Stop::Argument(why)) => {
            println!(err; "{why}")?;
            2
        }
        Err(Stop::Unjoined(number)) => number,
        Err(Stop::Failed(why)) => return Err(why),
    };
    println!(rt; "status {status}")
}
