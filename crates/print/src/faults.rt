// A fault or refusal as the programs print it: by its number, or in words.
ghost use Rattle.std.specs.Prelude.{◌≡◌};
ghost use Rattle.frame.specs.Faults.{number_of};

use frame::Fault;
use std::fmt;

// A number, as the structs of C's calls hold one too.
#[derive(Clone, Copy)]
pub struct FaultNumber(pub u8);

impl From<Fault> for FaultNumber {
    ghost from_gives = { λ fault n. n.0 ≡ number_of fault };

    fn from(fault: Fault) -> FaultNumber {
        FaultNumber(fault.number())
    }
}

impl fmt::Display for FaultNumber {
    fn fmt<W: fmt::Write>(&self, f: &mut fmt::Formatter<W>) -> fmt::Result {
        write!(f, "fault {}", self.0)
    }
}

// What is wrong with a reply: 7 with its digit. No other fault is a reply's, and any other is told by its number.
#[derive(Clone, Copy)]
pub struct FaultWords(pub Fault);

impl fmt::Display for FaultWords {
    fn fmt<W: fmt::Write>(&self, f: &mut fmt::Formatter<W>) -> fmt::Result {
        match self.0 {
            Fault::Silent => f.write_str("no reply"),
            Fault::WrongLength => f.write_str("wrong length"),
            Fault::NoStart => f.write_str("no start bit"),
            Fault::WrongAddress => f.write_str("wrong address"),
            Fault::WrongParity => f.write_str("wrong parity"),
            Fault::FillSet => f.write_str("fill bit set"),
            Fault::InNoChart(place) => write!(f, "unreadable digit {place}"),
            Fault::OutOfRange => f.write_str("level out of range"),
            Fault::BadTemperature => f.write_str("unreadable temperature"),
            fault => write!(f, "fault {}", fault.number()),
        }
    }
}
