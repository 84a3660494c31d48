// A line entered on a summary, the one way by which a save, a round and the pass over a whole sheet bring a summary up to date.
ghost use Rattle.std.specs.Prelude.{◌≡◌};
ghost use Rattle.frame.specs.Faults.{verdict};
ghost use Rattle.summary.specs.Sound.{Small};
ghost use Rattle.summary.specs.Entered.{One, Enters};
ghost use Rattle.summary.specs.Inside.Entering.{number_told};

use crate::figures::{pair_of, together};
use crate::handed::{MOST, counts_over, refuse_over};
use crate::{Line, Summary};
use frame::Fault;

// Enters a record's line: together with the line of its pair, or as a new one in its place; a record whose line does not fit is one of the others. Answers
// what refuses the summary then, where nothing did before: only what changed is asked. The lines are 30 at most, so they are looked through from the first on.
pub fn enter(summary: &mut Summary, line: Line) -> Result<(), Fault>
    requires small { Small summary.old }
    requires one { One line }
    ensures enters { Enters summary.old line summary.new (number_told result) }
    ensures answers { result ≡ verdict (number_told result) tt }
{
    let count = summary.count as usize;
    let pair = pair_of(line);
    let place = summary.lines[..count]
        .iter()
        .position(|there| pair <= pair_of(*there));
    let at = place.unwrap_or(count);
    if at < count && pair_of(summary.lines[at]) == pair {
        let changed = together(summary.lines[at], line);
        summary.lines[at] = changed;
        return refuse_over(counts_over(changed));
    }
    if count == 30 {
        summary.others += 1;
        return refuse_over(MOST < summary.others);
    }
    summary.lines.copy_within(at..count, at + 1);
    summary.lines[at] = line;
    summary.count += 1;
    Ok(())
}
