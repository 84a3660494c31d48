// What the bench program shows: replies, temperatures and bits.
use frame::{Fault, Reading, Temperature};
use print::FaultNumber;
use std::{fmt, io};

// Tenths of a degree as they are, with a minus.
#[derive(Clone, Copy)]
struct Tenths(Temperature);

impl fmt::Display for Tenths {
    fn fmt<W: fmt::Write>(&self, f: &mut fmt::Formatter<W>) -> fmt::Result {
        match self.0 {
            Temperature::Degrees(tenths) => write!(f, "{tenths}"),
            Temperature::Above => f.write_str("above"),
            Temperature::Below => f.write_str("below"),
            Temperature::Absent => f.write_str("absent"),
        }
    }
}

// A bit of a line, counted from 1 at the highest bit of the first byte: 1 for a mark, 0 where no byte is.
pub(crate) fn mark_at(line: &[u8], bit: usize) -> u8 {
    let from_zero = bit.saturating_sub(1);
    line.get(from_zero / 8)
        .map_or(0, |byte| byte >> (7 - from_zero % 8) & 1)
}

// The temperature bits 40 to 55 of a reply, by fours. By number, as document 01 counts the bits.
pub(crate) fn temperature_bits(rt: &impl Print, line: &[u8]) -> io::Result<()> {
    for bit in 40..56 {
        let before = if bit % 4 == 0 { " " } else { "" };
        print!(rt; "{before}{}", mark_at(line, bit))?;
    }
    Ok(())
}

// What reading a reply answered.
pub(crate) fn reply(rt: &impl Print, answer: Result<Reading, Fault>) -> io::Result<()> {
    match answer {
        Ok(reading) => {
            let Reading {
                level,
                temperature,
                alarm1,
                alarm0,
            } = reading;
            println!(rt;
                "level {level}, temperature {}, alarms {} {}",
                Tenths(temperature),
                u8::from(alarm1),
                u8::from(alarm0)
            )
        }
        Err(Fault::InNoChart(place)) => println!(rt; "fault 7, digit {place}"),
        Err(fault) => println!(rt; "{}", FaultNumber::from(fault)),
    }
}
