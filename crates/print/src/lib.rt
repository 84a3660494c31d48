// What the programs print with: bytes, a fault and a transmitter's settings, each made to stand in a format; and what the programs of the desk share.
#![tactic(auto)]

mod desk;
mod faults;
mod settings;

pub use desk::{BadArgument, Card, Stop, day_argument, end, read_card};
pub use faults::{FaultNumber, FaultWords};
pub use settings::{Mode, Parity, Settings, Transmitter};
use std::fmt;

// Bytes as numbers, each after a space.
#[derive(Clone, Copy)]
pub struct Numbers<'a>(pub &'a [u8]);

impl fmt::Display for Numbers<'_> {
    fn fmt<W: fmt::Write>(&self, f: &mut fmt::Formatter<W>) -> fmt::Result {
        for b in self.0 {
            write!(f, " {b}")?;
        }
        Ok(())
    }
}

// Bytes in hexadecimal, each after a space. A type of its own, since `{:x}` is for integers alone.
#[derive(Clone, Copy)]
pub struct Hex<'a>(pub &'a [u8]);

impl fmt::Display for Hex<'_> {
    fn fmt<W: fmt::Write>(&self, f: &mut fmt::Formatter<W>) -> fmt::Result {
        for b in self.0 {
            write!(f, " {b:02x}")?;
        }
        Ok(())
    }
}
