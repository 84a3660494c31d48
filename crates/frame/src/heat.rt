// Temperature in tenths of a degree, for types 1900 and 1800. Bit 40 of the line is bit 24 of its word, bit 55 is bit 9.
ghost use Rattle.std.specs.Prelude.{◌≡◌, false, ◌≢◌, ◌+◌, ◌%◌, ◌<◌, ◌≤◌, ◌^◌, min};
ghost use Rattle.frame.specs.Pick.{pick};
ghost use Rattle.frame.specs.Line.{bit};
ghost use Rattle.frame.specs.Temperature.{limit, is_plus, magnitude, degrees_at, hundreds1900, heat1800, heat_of, put_degrees, put_hundreds_1900, put_degrees_1900, put_degrees_1800};
ghost use Rattle.frame.specs.Inside.Packed.{heat_for};
ghost use Rattle.frame.specs.Inside.Written.{tenths_for, put_tenths};

use crate::{Temperature, line};

// The most that each type can say, with either sign.
const LIMIT_1900: u64 = 7999;

const LIMIT_1800: u64 = 1999;

// The sign of a number of tenths: zero is positive.
pub fn is_plus(d: i16) -> bool
    ensures { result ≡ is_plus d }
{
    0 <= d
}

// A number of tenths without its sign.
pub fn magnitude(d: i16) -> u64
    ensures { result ≡ magnitude d }
{
    u64::from(d.unsigned_abs())
}

// Sign and digits at bits 41 and 44-55, with these hundreds; none where a digit is above 9.
fn degrees_at(n: u64, hundreds: u16) -> Option<Temperature>
    requires { hundreds ≤ 7 }
    ensures { heat_for result ≡ degrees_at n hundreds }
{
    let d = (hundreds * 1000 + line::three(n, 9)?) as i16;
    let plus = (n >> 23) % 2 == 1;
    Some(Temperature::Degrees(if plus { d } else { -d }))
}

// The hundreds: of an 1800 bit 42; of a 1900 bits 40, 42, 43 are their bits 0, 1, 2, each inverted.
fn hundreds(is_1800: bool, n: u64) -> u16
    ensures { (result ≡ pick is_1800 (bit n 42) (hundreds1900 n)) × (result ≤ 7) }
{
    if is_1800 {
        return ((n >> 22) % 2) as u16;
    }
    ((1 - (n >> 24) % 2) + 2 * (1 - (n >> 22) % 2) + 4 * (1 - (n >> 21) % 2)) as u16
}

// Type 1800 where bit 40 or 43 is set: bit 43 is an error, above or, with bit 40, below; sign and digits are then not read.
fn beyond(n: u64) -> Option<Temperature>
    requires { bit n 43 ≡ 0 → bit n 40 ≢ 0 }
    ensures { heat_for result ≡ heat1800 n }
{
    if (n >> 21) % 2 == 0 {
        return None;
    }
    if (n >> 24) % 2 == 1 {
        return Some(Temperature::Below);
    }
    Some(Temperature::Above)
}

// How many error bits of an 1800 are set, 40 and 43; of a 1900 they are hundreds.
fn errors(is_1800: bool, n: u64) -> u64
    ensures { result ≡ pick is_1800 (bit n 43 + bit n 40) 0 }
{
    if is_1800 {
        return (n >> 21) % 2 + (n >> 24) % 2;
    }
    0
}

// The temperature of either type, none where its bits are not allowed.
pub(crate) fn read(is_1800: bool, n: u64) -> Option<Temperature>
    ensures { heat_for result ≡ heat_of is_1800 n }
{
    if errors(is_1800, n) != 0 {
        return beyond(n);
    }
    degrees_at(n, hundreds(is_1800, n))
}

// The sign and the last three digits of a number of tenths.
fn put_degrees(plus: bool, m: u64) -> u64
    ensures { result ≡ put_degrees plus m }
{
    u64::from(plus) * line::BIT_41 + line::three_of(m % 1000) * line::BIT_55
}

// The hundreds of a 1900 by their number: bits 0, 1, 2 in bits 40, 42, 43, each inverted.
fn hundreds_1900(h: u64) -> u64
    requires { h < 8 }
    ensures { result ≡ put_hundreds_1900 h }
{
    match h {
        0 => line::BIT_40 + line::BIT_42 + line::BIT_43,
        1 => line::BIT_42 + line::BIT_43,
        2 => line::BIT_40 + line::BIT_43,
        3 => line::BIT_43,
        4 => line::BIT_40 + line::BIT_42,
        5 => line::BIT_42,
        6 => line::BIT_40,
        _ => 0,
    }
}

// Degrees of a 1900: beyond the range the nearer end.
fn degrees_1900(plus: bool, m: u64) -> u64
    ensures { result ≡ put_degrees_1900 plus (min m (limit false)) }
{
    let within = m.min(LIMIT_1900);
    hundreds_1900(within / 1000) + put_degrees(plus, within)
}

// Above range sets bit 43 and a plus; below sets bits 43 and 40.
const ABOVE_1800: u64 = line::BIT_41 + line::BIT_43;

const BELOW_1800: u64 = line::BIT_40 + line::BIT_43;

// Degrees of an 1800 with their hundred, or above or below its range.
fn degrees_1800(plus: bool, m: u64) -> u64
    ensures { result ≡ put_degrees_1800 plus m }
{
    if m <= LIMIT_1800 {
        return m / 1000 * line::BIT_42 + put_degrees(plus, m);
    }
    if plus {
        return ABOVE_1800;
    }
    BELOW_1800
}

// A temperature as a number of tenths: above and below are numbers beyond the range of either type, so that each
// is written as such a number would be.
pub(crate) fn tenths(t: Temperature) -> i16
    ensures { result ≡ tenths_for t }
{
    match t {
        Temperature::Degrees(d) => d,
        Temperature::Above => i16::MAX,
        Temperature::Below => i16::MIN,
        Temperature::Absent => 0,
    }
}

// The bits of a number of tenths by type.
pub(crate) fn write(is_1800: bool, d: i16) -> u64
    ensures { result ≡ put_tenths is_1800 d }
{
    let plus = is_plus(d);
    let m = magnitude(d);
    if is_1800 {
        return degrees_1800(plus, m);
    }
    degrees_1900(plus, m)
}
