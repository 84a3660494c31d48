// The two lines of a transmitter sample by sample, heard and drawn.
ghost use Rattle.drawing.specs.Calls.{Draws};
ghost use Rattle.lines.specs.Calls.{HearsLines};

use drawing::Done;
use lines::{LinesTold, SoFar};

// Hears samples up to the one that closes a message, or to the last.
#[unsafe(no_mangle)]
pub extern "C" fn sisal_hear_lines(
    so_far: SoFar,
    least: usize,
    most: usize,
    gap: usize,
    samples: &[u8],
) -> LinesTold
    ensures { HearsLines so_far least most gap samples.now result }
{
    lines::sisal_hear_lines(so_far, least, most, gap, samples)
}

// Draws the bits of a message from a sample on.
#[unsafe(no_mangle)]
pub extern "C" fn sisal_draw(
    low: usize,
    still: usize,
    count: usize,
    message: &[u8],
    from: usize,
    out: &mut [u8],
) -> Done
    ensures { Draws low still count message.now from out.old result out.new }
{
    drawing::sisal_draw(low, still, count, message, from, out)
}
