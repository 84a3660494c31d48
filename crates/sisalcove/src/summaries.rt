// The desk summary: worked out, kept beside a save, and two put together.
ghost use Rattle.sheet.specs.Record.{entry_of};
ghost use Rattle.summary.specs.Calls.{MakesSummary, SavesWith};
ghost use Rattle.summary.specs.Joined.{JoinsSummaries};

use summary::{Kept, Made, Summary};

// Works the summary out from a sheet's list.
#[unsafe(no_mangle)]
pub extern "C" fn sisal_summary_of(sheet: &[u8]) -> Made
    ensures { MakesSummary sheet.now result }
{
    summary::sisal_summary_of(sheet)
}

// Saves a reply, and brings the summary up to date where the record is closed.
#[unsafe(no_mangle)]
pub extern "C" fn sisal_summary_save(
    sheet: &mut [u8],
    summary: Summary,
    settings: u8,
    minute: u32,
    address: u16,
    count: usize,
    reply: &[u8],
    allowance: usize,
) -> Kept
    ensures { SavesWith sheet.old summary (entry_of settings minute address count reply.now) allowance result sheet.new }
{
    summary::sisal_summary_save(
        sheet, summary, settings, minute, address, count, reply, allowance,
    )
}

// Puts two summaries together.
#[unsafe(no_mangle)]
pub extern "C" fn sisal_summary_join(a: Summary, b: Summary) -> Made
    ensures { JoinsSummaries a b result }
{
    joins::sisal_summary_join(a, b)
}
