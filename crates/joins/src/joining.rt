// Two summaries put together, as two rows of lines that rise are merged: one pass over both. How many pairs the join has is counted before anything is
// added up, since counts that are over could not be summed.
ghost use Rattle.std.specs.Prelude.{◌≡◌, ◌+◌, ◌<◌, length};
ghost use Rattle.summary.specs.Line.{page};
ghost use Rattle.summary.specs.Joined.{join_lines};
ghost use Rattle.summary.specs.Sound.{Sound};
ghost use Rattle.joins.specs.Inside.Joining.{Joinable, Turn};

use std::cmp::Ordering;
use summary::figures::{pair_of, together};
use summary::{Line, Summary, blank};

// Whose line is next of two rows, of which one has a line at least: the first row's where it is less, the second's, or that of both.
fn turn(left: &[Line], right: &[Line]) -> Ordering
    requires { 0 < length left.now + length right.now }
    ensures { Turn left.now right.now result }
{
    if right.is_empty() {
        Ordering::Less
    } else if left.is_empty() {
        Ordering::Greater
    } else {
        pair_of(left[0]).cmp(&pair_of(right[0]))
    }
}

// How many pairs two summaries have together. Two rows grow shorter, by turns, so a `for` over either would be no plainer.
pub(crate) fn count_pairs(a: Summary, b: Summary) -> usize
    requires sound { Sound a }
    requires sound_2 { Sound b }
    ensures { result ≡ length (join_lines a b) }
{
    let mut left = &a.lines[..a.count as usize];
    let mut right = &b.lines[..b.count as usize];
    let mut pairs: usize = 0;
    while 0 < left.len() + right.len() {
        match turn(left, right) {
            Ordering::Less => left = &left[1..],
            Ordering::Greater => right = &right[1..],
            Ordering::Equal => {
                left = &left[1..];
                right = &right[1..];
            }
        }
        pairs += 1;
    }
    pairs
}

// The lines of both, merged. The loop is a `while` as in `count_pairs`.
pub(crate) fn add_lines(a: Summary, b: Summary) -> Summary
    requires { Joinable a b }
    ensures { result ≡ page a.others (join_lines a b) }
{
    let mut left = &a.lines[..a.count as usize];
    let mut right = &b.lines[..b.count as usize];
    let mut lines = blank().lines;
    let mut count: u32 = 0;
    while 0 < left.len() + right.len() {
        let at = count as usize;
        match turn(left, right) {
            Ordering::Less => {
                lines[at] = left[0];
                left = &left[1..];
            }
            Ordering::Greater => {
                lines[at] = right[0];
                right = &right[1..];
            }
            Ordering::Equal => {
                lines[at] = together(left[0], right[0]);
                left = &left[1..];
                right = &right[1..];
            }
        }
        count += 1;
    }
    Summary {
        count,
        others: a.others,
        lines,
    }
}
