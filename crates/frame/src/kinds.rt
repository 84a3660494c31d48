// A temperature and a flag as the numbers that a host is handed: a kind with tenths of a degree, and 0 or 1.
ghost use Rattle.std.specs.Prelude.{◌≡◌};
ghost use Rattle.frame.specs.Line.{mark};
ghost use Rattle.frame.specs.Kinds.{kind_of, tenths_of, temperature_by};
ghost use Rattle.frame.specs.Reply.{is1800};

use crate::Temperature;

// Bit 2 of a settings byte is the type.
pub fn of_1800(settings: u8) -> bool
    ensures { result ≡ is1800 settings }
{
    settings / 4 % 2 == 1
}

pub fn marked(set: bool) -> u8
    ensures { result ≡ mark set }
{
    u8::from(set)
}

pub fn kind_of(t: Temperature) -> u8
    ensures { result ≡ kind_of t }
{
    match t {
        Temperature::Degrees(_) => 1,
        Temperature::Above => 2,
        Temperature::Below => 3,
        Temperature::Absent => 4,
    }
}

pub fn tenths_of(t: Temperature) -> i16
    ensures { result ≡ tenths_of t }
{
    match t {
        Temperature::Degrees(d) => d,
        _ => 0,
    }
}

// The temperature that a kind and tenths stand for: every kind but 1, 2 and 3 is absent.
pub fn temperature_by(kind: u8, tenths: i16) -> Temperature
    ensures { result ≡ temperature_by kind tenths }
{
    match kind {
        1 => Temperature::Degrees(tenths),
        2 => Temperature::Above,
        3 => Temperature::Below,
        _ => Temperature::Absent,
    }
}
