// The program "show_picture": the page of a card, to look at. The card comes on standard input; the arguments are the name that the page calls it by, and
// the day of minute 0, as 2026-11-01, where there is one. The page goes to standard output; the library makes it. Its last line
// tells what came of it: "status 0" after the page, "status 1" where the input is no card, "status 2" where an argument is no day, or there is no name.
// Standard error has said why then.
#![tactic(auto)]

mod names;

ghost use Rattle.std.specs.Prelude.{◌≤◌, length, IfOk};

use calendar::Day;
use print::{BadArgument, Stop};
use std::env::FillError;
use std::io;
use std::rt::Env;

// Puts the page of a sheet into an output, and answers how many bytes it has; none where the page is refused.
fn put_page(sheet: &[u8], name: &[u8], begin: Option<Day>, out: &mut [u8]) -> usize
    ensures { result ≤ length out.new }
{
    picture::picture(sheet, name, begin, out).unwrap_or(0)
}

// The output is long enough for the page of the largest sheet with the longest name, so nothing is refused, and it is written at once.
fn print_page(rt: &impl Print, sheet: &[u8], name: &[u8], begin: Option<Day>) -> io::Result<()> {
    let mut out = [0u8; 1_432_000];
    let size = put_page(sheet, name, begin, &mut out);
    rt.write_all(&out[..size])
}

// Puts the card's name, the first argument, into an output as the page has it, and answers how many bytes it takes. A name of more than 512 bytes is
// left out.
fn put_name(rt: &impl Env, out: &mut [u8]) -> Result<usize, Stop>
    ensures { IfOk result (λ size. size ≤ length out.new) }
{
    let mut name = [0u8; 512];
    match rt.arg(1, &mut name) {
        Ok(size) => Ok(names::escape(&name[..size], out)),
        Err(FillError::TooLong) => Ok(0),
        Err(FillError::NotPresent) => Err(Stop::Argument(BadArgument::NoName)),
    }
}

// Prints the page of the card on standard input.
fn show(rt: &(impl Env + Input + Print), err: &impl Print) -> Result<(), Stop> {
    let mut name = [0u8; 4096];
    let size = put_name(rt, &mut name)?;
    let begin = print::day_argument(rt, 2)?;
    let mut bytes = [0u8; 65537];
    let card = print::read_card(err, &mut rt.reader(), b"standard input", &mut bytes)?;
    print_page(rt, card.sheet, &name[..size], begin)?;
    Ok(())
}

fn main(rt: HostRuntime) -> io::Result<()> {
    let ended = show(&rt, &rt.stderr());
    print::end(&rt, &rt.stderr(), ended)
}
