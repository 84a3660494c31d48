// The block check: a 7 bit binary sum without carry.
ghost use Rattle.std.specs.Prelude.{◌≡◌};
ghost use Rattle.enraf.specs.Check.{block_check};

pub(crate) fn block_check(part: &[u8]) -> u8
    ensures { result ≡ block_check part.now }
{
    part.iter().fold(0, |sum: u8, b| sum ^ *b) % 128
}
