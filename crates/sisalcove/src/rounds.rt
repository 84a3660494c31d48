// A whole round of replies in one save.
ghost use Rattle.round.specs.Calls.{SavesRound, SavesRoundWith};

use round::{Round, Rounded, RoundedPage};
use summary::Summary;

// Saves the replies of a round.
#[unsafe(no_mangle)]
pub extern "C" fn sisal_save_round(sheet: &mut [u8], polled: Round, allowance: usize) -> Rounded
    ensures { SavesRound sheet.old polled allowance result sheet.new }
{
    round::sisal_save_round(sheet, polled, allowance)
}

// The same with a summary, which each closed reply brings up to date.
#[unsafe(no_mangle)]
pub extern "C" fn sisal_summary_save_round(
    sheet: &mut [u8],
    summary: Summary,
    polled: Round,
    allowance: usize,
) -> RoundedPage
    ensures { SavesRoundWith sheet.old summary polled allowance result sheet.new }
{
    round::sisal_summary_save_round(sheet, summary, polled, allowance)
}
