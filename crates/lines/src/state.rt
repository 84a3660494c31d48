// What was heard so far: which states a call leaves, what any other is heard as, and how it is told.
ghost use Rattle.std.specs.Prelude.{◌≡◌, ◌≤◌};
ghost use Rattle.lines.specs.SoFar.{is_open, rest_state, spoilt_by, has_no_bits, pads_clear, is_rest, is_between, is_in_run, is_spoilt, legal, meant};
ghost use Rattle.lines.specs.Hearing.{nothing, hearing, told_of};
ghost use Rattle.lines.specs.Calls.{answer_of, answered};
ghost use Rattle.lines.specs.Inside.Safe.{Safe};

use crate::{LinesTold, SoFar};
use frame::bytes_of;

// A spoiled message, and the idle samples that have come since.
pub(crate) fn spoilt_by(number: u8, run: u32) -> SoFar
    ensures { result ≡ spoilt_by number run }
{
    SoFar {
        bits: 0,
        run,
        count: 0,
        line: 0,
        fault: number,
    }
}

// A message is open: it has a bit, or is spoiled.
pub(crate) fn is_open(s: SoFar) -> bool
    ensures { result ≡ is_open s }
{
    (s.count != 0) | (s.fault != 0)
}

// The beginning.
pub fn at_rest() -> SoFar
    ensures { result ≡ rest_state }
{
    spoilt_by(0, 0)
}

// At most 64 bits, and 0 after the count. A word cannot be shifted by 64.
fn pads_clear(s: SoFar) -> bool
    ensures { result ≡ pads_clear s }
{
    match s.count {
        0 => s.bits == 0,
        1..=64 => s.bits % (1u64 << (64 - s.count)) == 0,
        _ => false,
    }
}

// The tests of a state are all made, with no jump between them: `&` and `|`.
fn no_bits(s: SoFar) -> bool
    ensures { result ≡ has_no_bits s }
{
    (s.bits == 0) & (s.count == 0)
}

pub fn is_rest(s: SoFar) -> bool
    ensures { result ≡ is_rest s }
{
    (s.fault == 0) & (s.line == 0) & no_bits(s) & (s.run == 0)
}

fn is_between(s: SoFar) -> bool
    ensures { result ≡ is_between s }
{
    (s.fault == 0) & (s.line == 0) & (1 <= s.count) & pads_clear(s) & (1..=9999).contains(&s.run)
}

fn is_in_run(s: SoFar) -> bool
    ensures { result ≡ is_in_run s }
{
    (s.fault == 0) & (1..=2).contains(&s.line) & pads_clear(s) & (1..=1001).contains(&s.run)
}

fn is_spoilt(s: SoFar) -> bool
    ensures { result ≡ is_spoilt s }
{
    (21..=22).contains(&s.fault) & (s.line == 0) & no_bits(s) & (s.run <= 9999)
}

fn legal(s: SoFar) -> bool
    ensures { result ≡ legal s }
{
    is_rest(s) | is_between(s) | is_in_run(s) | is_spoilt(s)
}

// A state that no call leaves is heard as a spoiled message of which no idle has come yet.
pub fn meant(s: SoFar) -> SoFar
    ensures { (result ≡ meant s) × Safe result }
{
    if legal(s) { s } else { spoilt_by(21, 0) }
}

// Nothing is told, and so many samples were taken.
fn untold(s: SoFar, taken: usize, number: u8) -> LinesTold
    ensures { result ≡ answer_of (hearing nothing s taken) number }
{
    LinesTold {
        so_far: s,
        taken,
        message: [0; 8],
        count: 0,
        number,
    }
}

// Bad timing: the state as it was handed in.
pub(crate) fn refused(s: SoFar) -> LinesTold
    ensures { result ≡ answer_of (hearing nothing s 0) 20 }
{
    untold(s, 0, 20)
}

// All samples are taken, and no message is closed.
pub(crate) fn left_open(s: SoFar, taken: usize) -> LinesTold
    ensures { result ≡ answered (hearing nothing s taken) }
{
    untold(s, taken, 0)
}

// The last sample taken closed what was open.
pub(crate) fn closed(s: SoFar, taken: usize) -> LinesTold
    requires { s.count ≤ 64 }
    ensures { result ≡ answered (hearing (told_of s) rest_state taken) }
{
    if s.fault != 0 {
        return untold(at_rest(), taken, s.fault);
    }
    LinesTold {
        so_far: at_rest(),
        taken,
        message: bytes_of(s.bits),
        count: s.count as u8,
        number: 0,
    }
}
