// A level written: its digits one after another, each in its chart's code, placed by the constants of its mode. A chart is handed over by its
// constant number, so that no choice by chart and no division is left.
ghost use Rattle.std.specs.Prelude.{◌≡◌, ◌+◌, ◌-◌, ◌*◌, ◌/◌, ◌%◌, ◌^◌, ◌<◌, ◌≤◌};
ghost use Rattle.frame.specs.Charts.{size_of, code_of};
ghost use Rattle.frame.specs.Inside.Packed.{chart_of, ones_code, three_up, write_up};
ghost use Rattle.frame.specs.Inside.Constants.{digit_bits, placed_at};

use crate::charts;
use crate::constants::Constants;

// The code of a level's ones digit, the digit just above it being odd or not. `above` is what stands above it: what that leaves is the digit.
fn digit_code(chart: u64, v: u64, above: u64, odd: bool) -> u64
    requires { above ≡ v / size_of (chart_of chart) }
    ensures { (result ≡ code_of odd (chart_of chart) (v % size_of (chart_of chart))) × (result < 16) }
{
    charts::code(chart, v - above * charts::size(chart), odd)
}

// The same where another digit stands above it: that is odd exactly if all that stands above is, because every chart has an even number of
// values. The caller has what stands above, for it is the level of the next digit, and so each division is made once.
pub(crate) fn ones_code(chart: u64, v: u64, above: u64) -> u64
    requires { above ≡ v / size_of (chart_of chart) }
    ensures { (result ≡ ones_code (chart_of chart) v) × (result < 16) }
{
    digit_code(chart, v, above, above % 2 == 1)
}

// The code of a level's first digit: no digit stands above it, and `start` is the state that its mode begins with.
pub(crate) fn first_code(chart: u64, v: u64, start: bool) -> u64
    ensures { (result ≡ code_of start (chart_of chart) (v % size_of (chart_of chart))) × (result < 16) }
{
    digit_code(chart, v, charts::over(chart, v), start)
}

// The last three decimal digits of a level in their codes, as three of the modes have them.
pub(crate) fn three_decimals(v: u64) -> u64
    ensures { (result ≡ three_up v) × (result < 4096) }
{
    ones_code(3, v, v / 10)
        + 16 * ones_code(3, v / 10, v / 100)
        + 256 * ones_code(3, v / 100, v / 1000)
}

// The five digits of a level in metres in their codes: the chart of the first one is handed over by its number, with the state above it.
pub(crate) fn five_digits(top: u64, v: u64, start: bool) -> u64
    requires { top < 16 }
    ensures { (result ≡ write_up (0x33330 + top) 5 start v) × (result < 2 ^ 20) }
{
    three_decimals(v)
        + 4096 * ones_code(3, v / 1000, v / 10000)
        + 65536 * first_code(top, v / 10000, start)
}

impl Constants {
    // Every digit bit of a mode.
    fn every_digit_bit(self) -> u64
        ensures { result ≡ (2 ^ digit_bits self.first self.after - 1) * 2 ^ (27 + self.after) }
    {
        ((1 << (38 - self.first - self.after)) - 1) << (27 + self.after)
    }

    // A level's bits by its digits in their codes. A level outside its mode has every digit bit 1; the fill is 0.
    pub(crate) fn placed(self, v: u64, codes: u64) -> u64
        requires { codes < 2 ^ 20 }
        ensures { result ≡ placed_at v codes self.first self.after self.largest }
    {
        if self.largest < v {
            return self.every_digit_bit();
        }
        codes << (27 + self.after)
    }
}
