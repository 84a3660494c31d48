// The charts of the digits: from code to place as words of sixteen codes, four bits each; from place to code worked out. A chart's number:
// 0 one bit, 1 two bits, 2 feet tens, 3 decimal, 4 inches, 5 sixteenths.
ghost use Rattle.std.specs.Prelude.{◌≡◌, ◌/◌, ◌<◌, ◌≤◌, get_or};
ghost use Rattle.frame.specs.Charts.{decimal, size_of, place_in, code_of};
ghost use Rattle.frame.specs.Inside.Packed.{chart_of, places_of, digit_of};

// How many values a digit has.
pub(crate) fn size(chart: u64) -> u64
    ensures { result ≡ size_of (chart_of chart) }
{
    match chart {
        0 => 2,
        1 => 4,
        2 => 8,
        3 => 10,
        4 => 12,
        _ => 16,
    }
}

// A number divided by the values of a digit, each divisor written out so that no division is left.
pub(crate) fn over(chart: u64, v: u64) -> u64
    ensures { result ≡ v / size_of (chart_of chart) }
{
    match chart {
        0 => v / 2,
        1 => v / 4,
        2 => v / 8,
        3 => v / 10,
        4 => v / 12,
        _ => v / 16,
    }
}

// For each code its place in the chart, or the chart's size where it is in no place; code 0 lowest.
fn places(chart: u64) -> u64
    ensures { result ≡ places_of (chart_of chart) }
{
    match chart {
        0 => 0x2222222222222210,
        1 => 0x4444444444442310,
        2 => 0x8888888854672310,
        3 => 0xaaa8aaa954672310,
        4 => 0xab98cccc54672310,
        _ => 0xab98dcef54672310,
    }
}

// The place of a code in its chart, or the chart's size where it is in no place.
fn place(chart: u64, code: u64) -> u64
    requires { code < 16 }
    ensures { result ≡ place_in code (chart_of chart).codes }
{
    (places(chart) >> (4 * code)) % 16
}

// A digit read from its four bits: the chart is read from its other end where the digit above is odd. 16 for a code in no chart.
pub(crate) fn digit(chart: u64, code: u64, odd: bool) -> u64
    requires { code < 16 }
    ensures { result ≡ digit_of (chart_of chart) code odd }
{
    let at = place(chart, code);
    let values = size(chart);
    if values <= at {
        return 16;
    }
    if odd {
        return values - 1 - at;
    }
    at
}

// The decimal code of a digit: the digit combined by exclusive or with half of it, rounded down, so that from each to the next just one bit
// changes. 9 alone is 1000, which is one bit away from the code of 8 too.
fn decimal_code(at: u64) -> u64
    requires { at ≤ 9 }
    ensures { result ≡ get_or decimal.codes at 0 }
{
    if at == 9 {
        return 0b1000;
    }
    at ^ (at / 2)
}

// The code at a place of a chart. Every chart but the decimal one goes by the same rule to its end, with no exception.
fn code_at(chart: u64, at: u64) -> u64
    requires { at < size_of (chart_of chart) }
    ensures { result ≡ get_or (chart_of chart).codes at 0 }
{
    if chart == 3 {
        return decimal_code(at);
    }
    let half = at / 2;
    at ^ half
}

// The code of a digit, from the chart's other end where the digit above is odd.
pub(crate) fn code(chart: u64, d: u64, odd: bool) -> u64
    requires { d < size_of (chart_of chart) }
    ensures { result ≡ code_of odd (chart_of chart) d }
{
    if odd {
        return code_at(chart, size(chart) - 1 - d);
    }
    code_at(chart, d)
}
