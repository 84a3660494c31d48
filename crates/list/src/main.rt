// The program "list": a sheet on standard input, its listing on standard output. The library makes all that is printed there. Standard error has a word
// where the input is no card to go by, and nothing otherwise.
#![tactic(auto)]

use std::io;

// The output is long enough for the listing of the largest sheet, so nothing is refused, and it is written at once.
fn print_listing(rt: &impl Print, sheet: &[u8]) -> io::Result<()> {
    let mut out = [0u8; 82000];
    match listing::whole_listing(sheet, &mut out) {
        Ok(size) => rt.write_all(&out[..size]),
        Err(_) => Ok(()),
    }
}

// One byte more than the largest sheet is read, so that a larger input is known. Of an input that cannot be read to its end nothing is listed.
fn main(rt: HostRuntime) -> io::Result<()> {
    let mut bytes = [0u8; 65537];
    let read = cards::read_card(&mut rt.reader(), &mut bytes);
    let sheet = &bytes[..read.unwrap_or(0)];
    cards::is_card(&rt.stderr(), b"standard input", read, cards::count(sheet))?;
    match read {
        Ok(_) => print_listing(&rt, sheet),
        Err(_) => Ok(()),
    }
}
