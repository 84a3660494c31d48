// Bytes as numbers, and the test for blank ones.
ghost use Rattle.std.specs.Prelude.{◌≡◌, ◌-◌, ◌^◌, ◌≤◌, length};
ghost use Rattle.sheet.specs.Bytes.{number_in, all_blank};

// The number that at most 8 bytes write, big-endian. Handed a part of 2, 4 or 8 bytes that are read nowhere else, this loop becomes one load; with a
// product by 256 in place of the shift it often does not. No `from_be_bytes`: it takes an array by value, so each byte of each part would be named.
pub(crate) fn number(part: &[u8]) -> u64
    requires { length part.now ≤ 8 }
    ensures { result ≡ number_in part.now }
{
    let mut n: u64 = 0;
    for byte in part {
        n = (n << 8) + u64::from(*byte);
    }
    n
}

// All bytes of a part are blank: FF is all ones, so they are exactly where their bits taken together are. Handed a part of constant size, this loop
// becomes a few operations on 16 bytes at once.
pub(crate) fn blank(part: &[u8]) -> bool
    ensures { result ≡ all_blank part.now }
{
    let mut common: u8 = 0xff;
    for byte in part {
        common &= *byte;
    }
    common == 0xff
}

// The word with 1 in every bit after the first `count`, and 0 in those.
pub(crate) fn past(count: usize) -> u64
    requires { count ≤ 64 }
    ensures { result ≡ 2 ^ (64 - count) - 1 }
{
    u64::MAX.unbounded_shr(count as u32)
}
