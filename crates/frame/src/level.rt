// A level read: the digits of a row one after another from the top.
ghost use Rattle.std.specs.Prelude.{◌≡◌, ◌+◌, ◌-◌, ◌*◌, ◌/◌, ◌%◌, ◌^◌, ◌<◌, ◌≤◌};
ghost use Rattle.frame.specs.Charts.{size_of};
ghost use Rattle.frame.specs.Level.{Level, read_row};
ghost use Rattle.frame.specs.Inside.Packed.{chart_of, digit_of, digit_row, read_code, Below, level_number};
ghost use Rattle.frame.specs.Inside.Constants.{fill_at};

use crate::constants::Constants;
use crate::{charts, line};

// What the reader gives for a digit in no chart: this, and the digit's place. Every level is below it.
pub(crate) const LOST: u64 = 1 << 32;

// The refusal of a level is its number times this. Every level is below it.
pub(crate) const FAULT: u64 = 1 << 16;

// The top one of `left` digits.
fn top_digit(row: u64, left: u64, bits: u64, odd: bool) -> u64
    requires left_nonzero { 0 < left }
    requires left_bound { left ≤ 8 }
    ensures { result ≡ digit_of (chart_of (row % 16)) (bits / 2 ^ (4 * (left - 1)) % 16) odd }
{
    charts::digit(row % 16, (bits >> (4 * (left - 1))) % 16, odd)
}

// The level of the digits so far and one more below them.
fn with_digit(row: u64, sofar: u64, d: u64) -> u64
    requires sofar_bound { sofar < 2 ^ 32 }
    requires d_bound { d < 16 }
    ensures { result ≡ sofar * size_of (chart_of (row % 16)) + d }
{
    sofar * charts::size(row % 16) + d
}

// The digits are read from the top, fewer left each time. `odd` tells of the digit just above, `sofar` is the level of the digits
// above, and `place` counts them. All that it carries are numbers, so that it compiles to a loop.
pub(crate) fn read_digits(row: u64, left: u64, bits: u64, odd: bool, sofar: u64, place: u64) -> u64
    requires left_bound { (sofar + 1) * 16 ^ left ≤ 2 ^ 32 }
    requires left_bound_2 { place + left ≤ 8 }
    ensures { result ≡ read_code (read_row (digit_row row left) bits odd sofar place) }
{
    if left == 0 {
        return sofar;
    }
    let d = top_digit(row, left, bits, odd);
    if d == 16 {
        return LOST + place;
    }
    let next = with_digit(row, sofar, d);
    read_digits(row / 16, left - 1, bits, d % 2 == 1, next, place + 1)
}

impl Constants {
    // The fill bits of a mode are 0: bit 16 where its digits begin after it, and those after its digits up to bit 37.
    pub(crate) fn fill_clear(self, n: u64) -> bool
        ensures { result ≡ fill_at n self.first self.after }
    {
        let head = (n >> 48) % 2 * (self.first - 16);
        let tail = (n >> 27) % (1 << self.after);
        head + tail == 0
    }

    // The bits of the digits of a line whose fill is 0: what stands after bit 15 and above the fill. Where bit 16 is fill it is a 0 before them.
    pub(crate) fn digit_bits(self, n: u64) -> u64
        ensures { result ≡ n % 2 ^ 49 / 2 ^ (27 + self.after) }
    {
        (n % line::BIT_15) >> (27 + self.after)
    }
}

// What a reader of digits gave, as a level or a fault: 7 with the place of the digit in no chart, 8 above the largest.
pub(crate) fn judged(largest: u64, v: u64) -> u64
    ensures { (l : Level) → Below (2 ^ 32) l → v ≡ read_code l → result ≡ level_number largest l }
{
    if LOST <= v {
        return 7 * FAULT + (v - LOST);
    }
    if largest < v {
        return 8 * FAULT;
    }
    v
}
