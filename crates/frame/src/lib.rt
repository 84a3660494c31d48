// The frame: polls and replies of the Mark/Space line, read and written. Each call takes every input; a bad one is refused by its
// number in document 01, and a refused write changes nothing.
#![tactic(auto)]

mod charts;
mod constants;
mod faults;
mod heat;
pub mod kinds;
mod level;
mod level_writing;
mod line;
mod modes;
mod pair_table;
mod pairs;
mod polls;
mod replies;
mod writing;

ghost use Rattle.frame.specs.Poll.{ReadsPoll, WritesPoll};
ghost use Rattle.frame.specs.Reply.{ReadsReply, WritesReply};
ghost use Rattle.frame.specs.Pairs.{ReadsReplyByPairs};

pub use faults::Fault;
pub use heat::{is_plus, magnitude};
pub use line::{bytes_of, formed};

// A temperature in tenths of a degree, above or below its range, or absent from the reply.
#[derive(Clone, Copy, PartialEq, Eq)]
pub enum Temperature {
    Degrees(i16),
    Above,
    Below,
    Absent,
}

// What an accepted reply tells. The level is in the unit of its mode.
#[derive(Clone, Copy, PartialEq, Eq)]
pub struct Reading {
    pub level: u16,
    pub temperature: Temperature,
    pub alarm1: bool,
    pub alarm0: bool,
}

#[derive(Clone, Copy, PartialEq, Eq)]
pub struct Poll {
    pub address: u16,
    pub raise: bool,
    pub reset: bool,
}

// Reads a poll. Refuses 16.
pub fn read_poll(poll: &[u8]) -> Result<Poll, Fault>
    ensures { ReadsPoll poll.now result }
{
    let Ok(bytes) = <[u8; 2]>::try_from(poll) else {
        return Err(Fault::NoPoll);
    };
    let n = u64::from(u16::from_be_bytes(bytes)) * line::BIT_16;
    if n < line::BIT_1 {
        return Err(Fault::NoPoll);
    }
    let Some(address) = line::three(n, 48) else {
        return Err(Fault::NoPoll);
    };
    Ok(Poll {
        address,
        raise: (n >> 61) % 2 == 1,
        reset: (n >> 60) % 2 == 1,
    })
}

// Writes a poll into the first 2 bytes. Refuses 11, 15.
pub fn write_poll(address: u16, raise: bool, reset: bool, out: &mut [u8]) -> Result<usize, Fault>
    ensures { WritesPoll address raise reset out.old result out.new }
{
    if 999 < address {
        return Err(Fault::BadAddress);
    }
    if out.len() < 2 {
        return Err(Fault::ShortOutput);
    }
    out[..2].copy_from_slice(&polls::word(address, raise, reset).to_be_bytes());
    Ok(2)
}

// Reads a reply to a poll of this address, in the mode, type and parity of these settings. Refuses 10, 11, 14, then 1 to 9.
pub fn read_reply(settings: u8, address: u16, count: usize, reply: &[u8]) -> Result<Reading, Fault>
    ensures { ReadsReply settings address count reply.now result }
{
    replies::read(settings, address, count, reply)
}

// The same answer by the second reader: a level in the decimal or a metric mode is read two digits at a time, from a table. Refuses 10, 11,
// 14, then 1 to 9.
pub fn read_reply_by_pairs(
    settings: u8,
    address: u16,
    count: usize,
    reply: &[u8],
) -> Result<Reading, Fault>
    ensures plain { ReadsReply settings address count reply.now result }
    ensures paired { ReadsReplyByPairs settings address count reply.now result }
{
    replies::read_by_pairs(settings, address, count, reply)
}

// Writes a reply: a reading whose temperature is absent into the first 5 bytes, any other into the first 7. Refuses 10, 11, 15.
pub fn write_reply(
    settings: u8,
    address: u16,
    reading: Reading,
    out: &mut [u8],
) -> Result<usize, Fault>
    ensures { WritesReply settings address reading out.old result out.new }
{
    let t = reading.temperature;
    if 15 < settings {
        return Err(Fault::BadSettings);
    }
    if 999 < address {
        return Err(Fault::BadAddress);
    }
    let short = writing::is_absent(t);
    let size = writing::size_for(short);
    if out.len() < size {
        return Err(Fault::ShortOutput);
    }
    writing::store(writing::whole_line(settings, address, reading), short, out);
    Ok(size)
}
