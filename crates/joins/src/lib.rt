// Two desk summaries put together (document 02, request 08). What a join is stands with the summary's definitions; here is the call alone, exported under
// the summary's prefix.
#![tactic(auto)]

mod joining;

ghost use Rattle.std.specs.Prelude.{◌≡◌};
ghost use Rattle.frame.specs.Faults.{verdict};
ghost use Rattle.summary.specs.Joined.{join_page, join_fault, JoinsSummaries};

use frame::Fault;
use joining::{add_lines, count_pairs};
use summary::handed::{lines_over, misshapen};
use summary::{Made, Summary, blank};

// The join of two summaries. Refuses 37, 25 and 24.
fn join(a: Summary, b: Summary) -> Result<Summary, Fault>
    ensures { result ≡ verdict (join_fault a b) (join_page a b) }
{
    if misshapen(&a) || misshapen(&b) {
        return Err(Fault::BadSummary);
    }
    if 30 < count_pairs(a, b) || 0 < a.others || 0 < b.others {
        return Err(Fault::ManyPairs);
    }
    if lines_over(&a) || lines_over(&b) {
        return Err(Fault::LargeCount);
    }
    let joined = add_lines(a, b);
    if lines_over(&joined) {
        return Err(Fault::LargeCount);
    }
    Ok(joined)
}

// Puts two summaries together: lowest of lowest, highest of highest and sums of counts, pair by pair. Refuses 37 in either, 25 more than 30 pairs or unkept
// records in either, 24 a good or faulty count above 1,000,000 in either or in the join; with a blank summary.
pub fn sisal_summary_join(a: Summary, b: Summary) -> Made
    ensures { JoinsSummaries a b result }
{
    match join(a, b) {
        Ok(summary) => Made { summary, number: 0 },
        Err(fault) => Made {
            summary: blank(),
            number: fault.number(),
        },
    }
}
