// Blank bytes of a slot, tested by words. A word of constant size is one load, where none of its bytes is read beside it; so the words do not overlap.
ghost use Rattle.std.specs.Prelude.{◌≡◌, drop};
ghost use Rattle.sheet.specs.Bytes.{all_blank};

use crate::bytes::number;

// The whole slot is blank: FF is all ones, so it is where the bits that its words have in common are.
pub(crate) fn blank_slot(part: &[u8; 32]) -> bool
    ensures { result ≡ all_blank part.now }
{
    number(&part[0..4]) & number(&part[4..8]) == 0xffff_ffff
        && number(&part[8..16]) & number(&part[16..24]) & number(&part[24..32]) == u64::MAX
}

// The bytes after the 8 where a reply can stand are blank.
pub(crate) fn blank_after(part: &[u8; 32]) -> bool
    ensures { result ≡ all_blank (drop 19 part.now) }
{
    number(&part[19..23]) == 0xffff_ffff && part[23] == 0xff && number(&part[24..32]) == u64::MAX
}
