// A poll drawn on the lines in two batches, as a picture of its samples, heard again in two and read.
use crate::draw::BEGINNING;
use crate::words::Told;
use std::{fmt, io};

// A picture of samples, a letter for each.
#[derive(Clone, Copy)]
struct Picture<'a>(&'a [u8]);

impl fmt::Display for Picture<'_> {
    fn fmt<W: fmt::Write>(&self, f: &mut fmt::Formatter<W>) -> fmt::Result {
        for sample in self.0 {
            f.write_str(match sample {
                0 => ".",
                1 => "M",
                2 => "S",
                _ => "?",
            })?;
        }
        Ok(())
    }
}

// Of address 7, with neither raise nor reset. The second batch goes on where the first one ended, and leaves idle for the gap.
pub(crate) fn all(rt: &impl Print) -> io::Result<()> {
    let mut poll = [0u8; 2];
    let _ = frame::write_poll(7, false, false, &mut poll);
    let mut first = [0u8; 33];
    drawing::sisal_draw(2, 3, 16, &poll, 0, &mut first);
    let mut second = [0u8; 51];
    drawing::sisal_draw(2, 3, 16, &poll, 33, &mut second);
    println!(rt; "{}{}", Picture(&first), Picture(&second))?;
    let heard = lines::sisal_hear_lines(BEGINNING, 2, 3, 4, &first);
    let told = lines::sisal_hear_lines(heard.so_far, 2, 3, 4, &second);
    print!(rt; "    {}, ", Told(&told))?;
    match frame::read_poll(&told.message[..2]) {
        Ok(poll) => println!(rt; "a poll of address {}", poll.address),
        Err(fault) => println!(rt; "number {}", fault.number()),
    }
}
