// What is asked of a summary that is handed in.
ghost use Rattle.std.specs.Prelude.{◌≡◌};
ghost use Rattle.frame.specs.Faults.{verdict};
ghost use Rattle.frame.specs.Pick.{pick};
ghost use Rattle.summary.specs.Handed.{is_blank, levels_right, counts_over, lines_over, handed_fault};
ghost use Rattle.summary.specs.Handed as said;
ghost use Rattle.summary.specs.Inside.Entering.{right_from};

use crate::figures::{NO_LEVEL, blank_line, pair_of};
use crate::{Line, Summary};
use frame::Fault;

// The most that is counted.
pub(crate) const MOST: u32 = 1_000_000;

fn is_blank(line: Line) -> bool
    ensures { result ≡ is_blank line }
{
    line == blank_line()
}

// A line has both levels exactly where it has a good reply.
fn levels_right(line: Line) -> bool
    ensures { result ≡ levels_right line }
{
    let none = line.good == 0;
    (line.lowest == NO_LEVEL) == none && (line.highest == NO_LEVEL) == none
}

// What is asked of the line at a place, whose pair must be at least one number where it is used.
fn place_right(count: u32, i: usize, least: u64, line: Line) -> bool
    ensures { result ≡ right_from count i least line }
{
    if i < count as usize {
        least <= u64::from(pair_of(line)) && levels_right(line)
    } else {
        is_blank(line)
    }
}

pub fn misshapen(s: &Summary) -> bool
    ensures { result ≡ said.misshapen s.now }
{
    if 30 < s.count {
        return true;
    }
    let mut least: u64 = 0;
    for (i, line) in s.lines.iter().enumerate() {
        if !place_right(s.count, i, least, *line) {
            return true;
        }
        least = u64::from(pair_of(*line)) + 1;
    }
    false
}

pub(crate) fn counts_over(line: Line) -> bool
    ensures { result ≡ counts_over line }
{
    MOST < line.good || MOST < line.faulty
}

pub fn lines_over(s: &Summary) -> bool
    ensures { result ≡ lines_over s.now }
{
    s.lines.iter().any(|line| counts_over(*line))
}

// A count is over, or not.
pub(crate) fn refuse_over(over: bool) -> Result<(), Fault>
    ensures { result ≡ verdict (pick over 24 0) tt }
{
    if over { Err(Fault::LargeCount) } else { Ok(()) }
}

// What refuses a summary that is handed in: 37, then 24.
pub fn check(s: &Summary) -> Result<(), Fault>
    ensures { result ≡ verdict (handed_fault s.now) tt }
{
    if misshapen(s) {
        return Err(Fault::BadSummary);
    }
    refuse_over(MOST < s.others || lines_over(s))
}
