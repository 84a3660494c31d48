// A round that the recorder runs: begun from the board, drawn and heard.
ghost use Rattle.polling.specs.Calls.{BeginsPolling, DrawsPolling, HearsPolling};
ghost use Rattle.polling.specs.Drawing.{drew_with};
ghost use Rattle.polling.specs.Settling.{settled_with};

use board::Row;
use polling::{Begun, Drew, Pace, Polling, Settled};

// Begins a round of the rows in use.
#[unsafe(no_mangle)]
pub extern "C" fn sisal_polling_begin(rows: &[Row], minute: u32) -> Begun
    ensures { BeginsPolling rows.now minute result }
{
    polling::sisal_polling_begin(rows, minute)
}

// Draws on, up to the end of the poll.
#[unsafe(no_mangle)]
pub extern "C" fn sisal_polling_draw(polling: &mut Polling, pace: Pace, out: &mut [u8]) -> Drew
    ensures { DrawsPolling polling.old pace out.old (drew_with polling.new result) out.new }
{
    polling::sisal_polling_draw(polling, pace, out)
}

// Hears the samples sensed since the poll, up to the one that settles the try.
#[unsafe(no_mangle)]
pub extern "C" fn sisal_polling_hear(
    polling: &mut Polling,
    pace: Pace,
    minute: u32,
    samples: &[u8],
) -> Settled
    ensures { HearsPolling polling.old pace minute samples.now (settled_with polling.new result) }
{
    polling::sisal_polling_hear(polling, pace, minute, samples)
}
