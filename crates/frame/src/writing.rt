// A reply written: the word of its bits, its parity bit, and its bytes stored.
ghost use Rattle.std.specs.Prelude.{◌≡◌, ◌++◌, ◌≤◌, length, drop};
ghost use Rattle.frame.specs.Pick.{pick};
ghost use Rattle.frame.specs.Line.{put, marks, first_bytes};
ghost use Rattle.frame.specs.Temperature.{is_absent};
ghost use Rattle.frame.specs.Reply.{body_of, parity_for, reply_line};
ghost use Rattle.frame.specs.Inside.Written.{front_of};

use crate::{Reading, Temperature, heat, kinds, line, modes};

pub(crate) fn is_absent(t: Temperature) -> bool
    ensures { result ≡ is_absent t }
{
    matches!(t, Temperature::Absent)
}

// The bytes of a reply: 5 where it is short, its temperature absent, else 7.
pub(crate) fn size_for(short: bool) -> usize
    ensures { result ≡ pick short 5 7 }
{
    if short { 5 } else { 7 }
}

// A reply up to its temperature: start at bit 1, the address digits down to bit 15, the level, the alarms at 38 and 39.
fn front(settings: u8, address: u16, reading: Reading) -> u64
    requires { address ≤ 999 }
    ensures { result ≡ front_of settings address reading }
{
    let head = line::BIT_1 + line::three_of(address as u64) * line::BIT_15;
    let level = modes::write_level((settings % 4) as u64, reading.level as u64);
    let alarms = u64::from(reading.alarm1) * line::BIT_38
        + u64::from(reading.alarm0) * line::BIT_39;
    head + level + alarms
}

// A reply without its parity bit: an absent temperature has no bits.
fn body(settings: u8, address: u16, reading: Reading) -> u64
    requires { address ≤ 999 }
    ensures { result ≡ body_of settings address reading }
{
    let t = reading.temperature;
    let front = front(settings, address, reading);
    if is_absent(t) {
        return front;
    }
    front + heat::write(kinds::of_1800(settings), heat::tenths(t))
}

// The marks of a reply, counted over its bytes, 5 of a short one and 7 of any other.
fn marks(n: u64, short: bool) -> u32
    ensures { result ≡ marks (first_bytes (pick short 5 7) n) }
{
    let bytes = n.to_be_bytes();
    if short {
        return line::marks(&bytes[..5]);
    }
    line::marks(&bytes[..7])
}

// The parity bit makes the marks even in number, or odd, by setting.
fn parity_bit(settings: u8, n: u64, short: bool) -> u64
    ensures { (result ≡ parity_for settings (first_bytes (pick short 5 7) n)) × (result ≤ 1) }
{
    u64::from((marks(n, short) % 2 + u32::from(settings / 8 % 2)) % 2)
}

// The last bit of a reply, 40 of a short one and 56 of any other.
fn last_bit(short: bool) -> u64
    ensures { result ≡ put 1 (pick short 40 56) }
{
    if short { line::BIT_40 } else { line::BIT_56 }
}

// The whole line of a reply, in 40 bits where its temperature is absent and else in 56.
pub(crate) fn whole_line(settings: u8, address: u16, reading: Reading) -> u64
    requires { address ≤ 999 }
    ensures { result ≡ reply_line settings address reading }
{
    let t = reading.temperature;
    let n = body(settings, address, reading);
    let short = is_absent(t);
    n + parity_bit(settings, n, short) * last_bit(short)
}

// The first bytes of a line put at the front of the output, 5 of a short reply and 7 of any other.
pub(crate) fn store(n: u64, short: bool, out: &mut [u8])
    requires { pick short 5 7 ≤ length out.old }
    ensures { out.new ≡ first_bytes (pick short 5 7) n ++ drop (pick short 5 7) out.old }
{
    let bytes = n.to_be_bytes();
    if short {
        out[..5].copy_from_slice(&bytes[..5]);
    } else {
        out[..7].copy_from_slice(&bytes[..7]);
    }
}
