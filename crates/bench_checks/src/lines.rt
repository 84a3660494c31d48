// The bench checks of polls and replies.
use crate::shown;
use frame::{Reading, Temperature};
use print::{FaultNumber, Hex};
use std::io;

// Writes a temperature at these settings, and prints its bits and what they read as. The rest is the bench's reply: address 7 at decimal 30.00 with no
// alarms, in even parity.
pub(crate) fn temperature(rt: &impl Print, settings: u8, tenths: i16) -> io::Result<()> {
    let reading = Reading {
        level: 3000,
        temperature: Temperature::Degrees(tenths),
        alarm1: false,
        alarm0: false,
    };
    let mut out = [0u8; 7];
    match frame::write_reply(settings, 7, reading, &mut out) {
        Ok(_) => {
            shown::temperature_bits(rt, &out)?;
            print!(rt; " reads as ")?;
            shown::reply(rt, frame::read_reply(settings, 7, 56, &out))
        }
        Err(fault) => println!(rt; "{}", FaultNumber::from(fault)),
    }
}

// Reads these bytes as a reply of this count, polled at address 7 in decimal.
pub(crate) fn count(rt: &impl Print, bits: usize, bytes: &[u8]) -> io::Result<()> {
    print!(rt; "count {bits}: ")?;
    shown::reply(rt, frame::read_reply(1, 7, bits, bytes))
}

// A poll of this address, and a reply asked of it.
pub(crate) fn address(rt: &impl Print, asked: u16, reply: &[u8]) -> io::Result<()> {
    print!(rt; "address {asked}: poll")?;
    let mut out = [0u8; 2];
    match frame::write_poll(asked, false, false, &mut out) {
        Ok(_) => println!(rt; "{}", Hex(&out))?,
        Err(fault) => println!(rt; " {}", FaultNumber::from(fault))?,
    }
    print!(rt; "address {asked}: reply ")?;
    shown::reply(rt, frame::read_reply(1, asked, 40, reply))
}

// Replies of 40 bits in a mode, read two digits at a time: levels that turn, a digit in no chart at each place, and both ends of a range.
pub(crate) fn second_reader(rt: &impl Print) -> io::Result<()> {
    let replies = [
        (1, b"\x80\x0e\x70\x00\x01"),
        (1, b"\x80\x0e\x50\x00\x00"),
        (1, b"\x80\x0e\xfe\x00\x01"),
        (1, b"\x80\x0e\xe1\xe0\x01"),
        (1, b"\x80\x0e\xe0\x12\x01"),
        (2, b"\x80\x0f\x00\x00\x01"),
        (2, b"\x80\x0f\xff\xff\x01"),
        (3, b"\x80\x0f\x22\xc0\x01"),
        (3, b"\x80\x0f\x22\x40\x00"),
        (3, b"\x80\x0f\x80\x05\x00"),
    ];
    for (mode, reply) in replies {
        print!(rt; "by pairs, mode {mode}: ")?;
        shown::reply(rt, frame::read_reply_by_pairs(mode, 7, 40, reply))?;
    }
    Ok(())
}
