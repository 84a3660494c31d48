// The two lines of a transmitter heard sample by sample. A host samples the mark line and the space line, hands over the samples in whatever batches
// it has, and is handed back each message as bits, or its spoiling as a number. Its one public call is `sisal_hear_lines`.
#![tactic(auto)]

mod runs;
pub mod state;
mod step;

ghost use Rattle.std.specs.Prelude.{◌≡◌, ◌≤◌};
ghost use Rattle.lines.specs.Timing.{timing, bad_timing};
ghost use Rattle.lines.specs.Hearing.{hear};
ghost use Rattle.lines.specs.Calls.{answered, HearsLines};
ghost use Rattle.lines.specs.Inside.Safe.{Safe};

// What was heard so far, between two calls. All zeros is the beginning.
#[repr(C)]
#[derive(Clone, Copy)]
pub struct SoFar {
    // The bits of the message so far, bit 1 highest, 0 after the count.
    pub bits: u64,
    // The samples of the run that goes on: of the line that is low, or of idle.
    pub run: u32,
    // The bits of the message so far, 0 to 64.
    pub count: u16,
    // The line that is low: 0 none, 1 mark, 2 space.
    pub line: u8,
    // 0, or 21 or 22 where the message is spoiled.
    pub fault: u8,
}

// What a call tells: a message has 1 to 64 bits, bit 1 the highest of the first byte; else the count is 0 and the bytes are 0.
#[repr(C)]
#[derive(Clone, Copy)]
pub struct LinesTold {
    pub so_far: SoFar,
    pub taken: usize,
    pub message: [u8; 8],
    pub count: u8,
    pub number: u8,
}

pub fn bad_timing(least: usize, most: usize, gap: usize) -> bool
    ensures { result ≡ bad_timing (timing least most gap) }
{
    most < least
        || !(1..=1000).contains(&least)
        || !(1..=1000).contains(&most)
        || !(1..=10000).contains(&gap)
}

// Hears samples up to the one that closes a message, or to the last, run by run: the first sample of a run by itself, and those like it at once.
// The place goes by number: a slice that shrinks, a pointer and a length, took 5 % more time over messages.
pub fn hear(least: usize, most: usize, gap: usize, begun: SoFar, samples: &[u8]) -> LinesTold
    requires le_gap { 1 ≤ gap }
    requires gap_bound { gap ≤ 10000 }
    requires safe { Safe begun }
    ensures { result ≡ answered (hear (timing least most gap) begun samples.now) }
{
    let mut s = begun;
    let mut i = 0;
    while i < samples.len() {
        let sample = samples[i];
        let end = runs::run_end(samples, i + 1, sample);
        s = step::after(least, most, s, sample);
        i += 1;
        if step::closes(gap, s) {
            return state::closed(s, i);
        }
        if let Some(wanted) = step::wanted(gap, s, sample, end - i) {
            return state::closed(s, i + wanted);
        }
        s = step::grown(s, sample, end - i);
        i = end;
    }
    state::left_open(s, i)
}

// Hears the lines. Refuses 20 where a timing number is bad: nothing is taken, and the state comes back as it was. 22 tells of a spoiled message in
// which a byte above 3 came, 21 of any other, both with the samples taken.
pub fn sisal_hear_lines(
    so_far: SoFar,
    least: usize,
    most: usize,
    gap: usize,
    samples: &[u8],
) -> LinesTold
    ensures { HearsLines so_far least most gap samples.now result }
{
    if bad_timing(least, most, gap) {
        return state::refused(so_far);
    }
    hear(least, most, gap, state::meant(so_far), samples)
}
