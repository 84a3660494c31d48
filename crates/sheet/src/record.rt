// A record in the bytes of a slot: its checks, what it says, and whether it is one.
ghost use Rattle.std.specs.Prelude.{◌≡◌, ◌≤◌, ◌&&◌, leb, take, drop};
ghost use Rattle.frame.specs.Faults.{first_of, verdict};
ghost use Rattle.sheet.specs.Bytes.{big_endian, number_in};
ghost use Rattle.sheet.specs.Record.{checks, is_record, fields_of};
ghost use Rattle.sheet.specs.Look.{entry_with, head_of};
ghost use Rattle.sheet.specs.Inside.Word.{first_bits};

use crate::Head;
use crate::bytes::{number, past};
use crate::words::blank_after;
use frame::{Fault, bytes_of};

// The first check that a record fails. No check looks at the minute.
pub fn check(head: Head, reply: &[u8]) -> Result<(), Fault>
    ensures { result ≡ verdict (first_of (checks (entry_with head reply.now))) tt }
{
    if 15 < head.settings {
        return Err(Fault::BadSettings);
    }
    if 999 < head.address {
        return Err(Fault::BadAddress);
    }
    if frame::formed(head.count, reply) {
        return Ok(());
    }
    Err(Fault::BadForm)
}

// What a slot says beside its reply bytes, where a record stands there.
pub(crate) fn head_in(part: &[u8; 32]) -> Head
    ensures { result ≡ head_of (fields_of part.now) }
{
    Head {
        settings: part[3],
        minute: number(&part[4..8]) as u32,
        address: number(&part[8..10]) as u16,
        count: usize::from(part[10]),
    }
}

// Bit count, settings and address are none that a check refuses.
fn in_range(head: Head) -> bool
    ensures { result ≡ (leb head.count 64 && (leb head.settings 15 && leb head.address 999)) }
{
    head.count <= 64 && head.settings <= 15 && head.address <= 999
}

// The slot holds a record: it passes the checks, its length and version are right, and FF follows it.
pub(crate) fn is_record(part: &[u8; 32]) -> bool
    ensures { result ≡ is_record part.now }
{
    let head = head_in(part);
    if !in_range(head) {
        return false;
    }
    let size = head.count.div_ceil(8);
    number(&part[0..2]) == 9 + size as u64
        && part[2] == 1
        && blank_after(part)
        && number(&part[11..19]) & past(head.count) == past(8 * size)
}

// The bytes where a reply can stand, with 0 in every bit after the first `count`. Of a record these are its reply bytes, and 0 after them. The bits are
// those that `is_record` looks at, so the compiler works them out once.
pub(crate) fn reply_in(part: &[u8; 32], count: usize) -> [u8; 8]
    requires { count ≤ 64 }
    ensures { result ≡ big_endian 8 (first_bits count (number_in (take 8 (drop 11 part.now)))) }
{
    let word = number(&part[11..19]);
    bytes_of(word - (word & past(count)))
}
