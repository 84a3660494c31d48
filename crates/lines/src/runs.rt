// Where a run of equal samples ends. A line goes on as it is most of the time, so samples are compared eight and 64 at once. A place goes on by
// its number here, as in `hear`: slices taken off the front, each a pointer and a length, took a tenth more instructions where runs are long.
ghost use Rattle.std.specs.Prelude.{◌≡◌, true, ◌≤◌, length};
ghost use Rattle.lines.specs.Inside.Runs.{Digits, Alike, RunTo};

// Eight samples as one word, the first highest. Over an array this loop becomes one load; `from_be_bytes` is a sum of bytes read one by one.
fn word(eight: &[u8; 8]) -> u64
    ensures { Digits eight.now 8 result }
{
    let mut n: u64 = 0;
    for x in eight {
        n = (n << 8) + u64::from(*x);
    }
    n
}

// How many of eight samples are alike from the first on: as many as whole bytes are 0 above the first bit that differs.
fn alike_front(eight: &[u8; 8], sample: u8) -> usize
    ensures { (result ≤ 8) × Alike eight.now 0 result sample }
{
    let differs = word(eight) ^ (u64::from(sample) * 0x0101_0101_0101_0101);
    (differs.leading_zeros() / 8) as usize
}

// Whether all samples of a block are alike. With no test of each, where `all` has one, this loop becomes a few operations on 16 bytes at once.
fn all_alike(block: &[u8; 64], sample: u8) -> bool
    ensures { result ≡ true → Alike block.now 0 64 sample }
{
    let mut any = 0;
    for x in block {
        any |= *x ^ sample;
    }
    any == 0
}

// Past whole blocks of samples that are alike.
fn past_blocks(samples: &[u8], from: usize, sample: u8) -> usize
    requires { from ≤ length samples.now }
    ensures { RunTo samples.now from result sample }
{
    let mut i = from;
    while let Some(block) = samples[i..].first_chunk::<64>() {
        if !all_alike(block, sample) {
            return i;
        }
        i += 64;
    }
    i
}

// Past samples that are alike, one by one, the place counted by hand: `position` over what is left took 8 % more time over messages.
fn past_each(samples: &[u8], from: usize, sample: u8) -> usize
    requires { from ≤ length samples.now }
    ensures { RunTo samples.now from result sample }
{
    let mut i = from;
    while i < samples.len() {
        if samples[i] != sample {
            return i;
        }
        i += 1;
    }
    i
}

// Where the run of a sample ends that goes on at `from`. A pulse ends within a word or two; a stuck or an idle line is passed over by blocks.
pub(crate) fn run_end(samples: &[u8], from: usize, sample: u8) -> usize
    requires { from ≤ length samples.now }
    ensures { RunTo samples.now from result sample }
{
    let mut i = from;
    while let Some(eight) = samples[i..].first_chunk::<8>() {
        let alike = alike_front(eight, sample);
        if alike < 8 {
            return i + alike;
        }
        i = past_blocks(samples, i + 8, sample);
    }
    past_each(samples, i, sample)
}
