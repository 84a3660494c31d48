// Pulses put into an output that was made idle: a run of equal samples is filled at once.
ghost use Rattle.std.specs.Prelude.{◌≡◌, ◌+◌, ◌/◌, ◌<◌, ◌≤◌, length, drop};
ghost use Rattle.drawing.specs.Pulses.{low_sample, bit_after, drawing};
ghost use Rattle.drawing.specs.Inside.Fills.{Fills};

// A mark pulls line 1 low, a space line 2: the numbers of C's samples.
fn line_of(message: &[u8], passed: usize) -> u8
    requires { passed / 8 < length message.now }
    ensures { result ≡ low_sample (bit_after message.now passed) }
{
    if (message[passed / 8] >> (7 - passed % 8)) % 2 == 1 {
        1
    } else {
        2
    }
}

// All of it idle first, and then the pulse of each bit that is drawn, or what is left of it from the first sample on.
pub(crate) fn draw(
    low: usize,
    still: usize,
    count: usize,
    message: &[u8],
    from: usize,
    out: &mut [u8],
) -> usize
    requires le_low { 1 ≤ low }
    requires low_bound { low ≤ 1000 }
    requires still_bound { still ≤ 10000 }
    requires count_bound { count ≤ 64 }
    requires message_len { length message.now ≡ (count + 7) / 8 }
    ensures { Fills (drop from (drawing low still count message.now)) out.old 0 result out.new }
{
    let size = low + still;
    let end = (count * size).saturating_sub(from).min(out.len());
    out[..end].fill(0);
    let mut begin = 0;
    let mut passed = from % size;
    for bit in from / size..count {
        if end <= begin {
            break;
        }
        let stop = (begin + low.saturating_sub(passed)).min(end);
        let line = line_of(message, bit);
        for sample in &mut out[begin..stop] {
            *sample = line;
        }
        begin += size - passed;
        passed = 0;
    }
    end
}
