// What one sample does to what was heard so far. Lines and samples are the numbers that C has, and tests joined by `&` make no jump between them.
ghost use Rattle.std.specs.Prelude.{◌≡◌, ℕ, ◌+◌, ◌<◌, ◌≤◌, min, eqb, leb, ◌&&◌, MatchOption};
ghost use Rattle.lines.specs.Sample.{sample_of};
ghost use Rattle.lines.specs.Timing.{timing};
ghost use Rattle.lines.specs.Step.{with_bit, run_ended, longer_idle, after_idle, after_low, after_both, after};
ghost use Rattle.lines.specs.Inside.Safe.{Safe};
ghost use Rattle.lines.specs.Inside.Runs.{endless, wanted_of, grown};

use crate::SoFar;
use crate::state::{is_open, spoilt_by};

// The first run that is too long for every most.
const TOO_LONG: usize = 1001;

// The pulse that has ended is one bit more: a mark is 1, at the place after the bits that have come.
fn with_bit(s: SoFar) -> SoFar
    requires count_bound { s.count < 64 }
    requires safe { Safe s }
    ensures { result ≡ with_bit s }
{
    SoFar {
        bits: s.bits + (u64::from(s.line == 1) << (63 - s.count)),
        run: 1,
        count: s.count + 1,
        line: 0,
        fault: 0,
    }
}

// An idle sample after a run of marks or of spaces.
fn run_ended(least: usize, most: usize, s: SoFar) -> SoFar
    requires { Safe s }
    ensures { result ≡ run_ended least most s }
{
    let run = s.run as usize;
    if (least <= run) & (run <= most) & (s.count < 64) {
        with_bit(s)
    } else {
        spoilt_by(21, 1)
    }
}

// One sample more of an idle run, where something is open.
fn longer_idle(s: SoFar) -> SoFar
    requires safe { Safe s }
    requires line_value { s.line ≡ 0 }
    ensures { result ≡ longer_idle s }
{
    if is_open(s) {
        SoFar {
            run: s.run + 1,
            ..s
        }
    } else {
        s
    }
}

fn after_idle(least: usize, most: usize, s: SoFar) -> SoFar
    requires { Safe s }
    ensures { result ≡ after_idle least most s }
{
    if s.line == 0 {
        longer_idle(s)
    } else {
        run_ended(least, most, s)
    }
}

// So many samples more of a run. The count stops at a first number that is too long, so that it never wraps.
fn longer(run: u32, more: usize, top: usize) -> u32
    requires { top ≤ 10000 }
    ensures { result ≡ min (run + more) top }
{
    (run as usize).saturating_add(more).min(top) as u32
}

fn after_low(line: u8, s: SoFar) -> SoFar
    requires { 1 ≤ line }
    ensures { result ≡ after_low line s }
{
    if s.fault != 0 {
        return spoilt_by(s.fault, 0);
    }
    if s.line == line {
        return SoFar {
            run: longer(s.run, 1, TOO_LONG),
            ..s
        };
    }
    if s.line == 0 {
        SoFar { run: 1, line, ..s }
    } else {
        spoilt_by(21, 0)
    }
}

fn after_both(number: u8, s: SoFar) -> SoFar
    ensures { result ≡ after_both number s }
{
    if s.fault == 22 {
        spoilt_by(22, 0)
    } else {
        spoilt_by(number, 0)
    }
}

// A choice by `if`, idle first: a `match` tests for 3 first, and a stream of messages took 7 % more instructions.
pub(crate) fn after(least: usize, most: usize, s: SoFar, sample: u8) -> SoFar
    requires { Safe s }
    ensures { (gap : ℕ) → result ≡ after (timing least most gap) s (sample_of sample) }
{
    if sample == 0 {
        after_idle(least, most, s)
    } else if sample <= 2 {
        after_low(sample, s)
    } else if sample == 3 {
        after_both(21, s)
    } else {
        after_both(22, s)
    }
}

pub(crate) fn closes(gap: usize, s: SoFar) -> bool
    ensures { result ≡ (eqb s.line 0 && leb gap s.run) }
{
    (s.line == 0) & (gap <= s.run as usize)
}

// After how many of so many samples more like the last one what is open closes. It does not where nothing is open, or the sample is not idle.
// With `&&`, so that samples of a line that is low go by the first test: with `&`, and a `match` in `after`, messages took 16 % more instructions.
pub(crate) fn wanted(gap: usize, s: SoFar, sample: u8, more: usize) -> Option<usize>
    requires { more < endless }
    ensures { MatchOption result (more < wanted_of gap sample s) (λ n. (n ≡ wanted_of gap sample s) × (n ≤ more)) }
{
    if sample == 0 && is_open(s) {
        let left = gap.saturating_sub(s.run as usize);
        if left <= more {
            return Some(left);
        }
    }
    None
}

// What was heard after so many samples more like the last one, where they close nothing.
pub(crate) fn grown(s: SoFar, sample: u8, more: usize) -> SoFar
    ensures { result ≡ grown sample more s }
{
    if sample == 0 {
        if is_open(s) {
            SoFar {
                run: longer(s.run, more, 10000),
                ..s
            }
        } else {
            s
        }
    } else if s.line == 0 {
        s
    } else {
        SoFar {
            run: longer(s.run, more, TOO_LONG),
            ..s
        }
    }
}
