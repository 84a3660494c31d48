// Neighbouring levels: a reply of each from address 7 in even parity, and which of bits 16 to 37 differ.
use crate::shown::mark_at;
use frame::{Reading, Temperature};
use print::{FaultNumber, Hex};
use std::io;

// Writes a reply of this level into an output of just its size, and prints its bytes.
fn reply(
    rt: &impl Print,
    mode: u8,
    level: u16,
    temperature: Temperature,
    out: &mut [u8],
) -> io::Result<()> {
    print!(rt; "mode {mode}, {level}:")?;
    let reading = Reading {
        level,
        temperature,
        alarm1: false,
        alarm0: false,
    };
    match frame::write_reply(mode, 7, reading, out) {
        Ok(_) => print!(rt; "{}", Hex(out)),
        Err(fault) => println!(rt; "{}", FaultNumber::from(fault)),
    }
}

// The one level without a temperature, and the next with -12.3 of a 1900: the level's bits do not depend on it.
fn step(rt: &impl Print, mode: u8, level: u16, above: u16) -> io::Result<()> {
    let mut one = [0u8; 5];
    reply(rt, mode, level, Temperature::Absent, &mut one)?;
    println!(rt)?;
    let mut next = [0u8; 7];
    reply(rt, mode, above, Temperature::Degrees(-123), &mut next)?;
    print!(rt; ", bit")?;
    for bit in (16..38).filter(|bit| mark_at(&one, *bit) != mark_at(&next, *bit)) {
        print!(rt; " {bit}")?;
    }
    println!(rt)
}

// Levels a step apart, where a digit turns over and at the end of each mode.
pub(crate) fn neighbours(rt: &impl Print) -> io::Result<()> {
    let steps = [
        (0, 191, 192),
        (0, 1151, 1152),
        (0, 15358, 15359),
        (1, 999, 1000),
        (1, 2999, 3000),
        (1, 7998, 7999),
        (2, 9999, 10000),
        (2, 19998, 19999),
        (3, 9999, 10000),
        (3, 19999, 20000),
        (3, 29999, 30000),
        (3, 32698, 32699),
    ];
    for (mode, level, above) in steps {
        step(rt, mode, level, above)?;
    }
    Ok(())
}
