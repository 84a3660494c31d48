// A transmitter's settings in words: mode, type and parity. The bits are those of document 01.
ghost use Rattle.std.specs.Prelude.{◌≡◌};
ghost use Rattle.print.specs.Words.{settings_of};

use std::fmt;

#[derive(Clone, Copy)]
pub enum Mode {
    Fractional,
    Decimal,
    Metres20,
    Metres30,
}

impl fmt::Display for Mode {
    fn fmt<W: fmt::Write>(&self, f: &mut fmt::Formatter<W>) -> fmt::Result {
        f.pad(match self {
            Mode::Fractional => "fractional",
            Mode::Decimal => "decimal",
            Mode::Metres20 => "20 m",
            Mode::Metres30 => "30 m",
        })
    }
}

#[derive(Clone, Copy)]
pub enum Transmitter {
    Model1900,
    Model1800,
}

impl fmt::Display for Transmitter {
    fn fmt<W: fmt::Write>(&self, f: &mut fmt::Formatter<W>) -> fmt::Result {
        f.pad(match self {
            Transmitter::Model1900 => "1900",
            Transmitter::Model1800 => "1800",
        })
    }
}

#[derive(Clone, Copy)]
pub enum Parity {
    Even,
    Odd,
}

impl fmt::Display for Parity {
    fn fmt<W: fmt::Write>(&self, f: &mut fmt::Formatter<W>) -> fmt::Result {
        f.pad(match self {
            Parity::Even => "even",
            Parity::Odd => "odd",
        })
    }
}

#[derive(Clone, Copy)]
pub struct Settings {
    pub mode: Mode,
    pub transmitter: Transmitter,
    pub parity: Parity,
}

// The lowest four bits; the others say nothing.
impl From<u16> for Settings {
    ghost from_gives = { λ bits s. s ≡ settings_of bits };

    fn from(bits: u16) -> Settings {
        Settings {
            mode: match bits % 4 {
                0 => Mode::Fractional,
                1 => Mode::Decimal,
                2 => Mode::Metres20,
                _ => Mode::Metres30,
            },
            transmitter: if bits / 4 % 2 == 1 {
                Transmitter::Model1800
            } else {
                Transmitter::Model1900
            },
            parity: if bits / 8 % 2 == 1 {
                Parity::Odd
            } else {
                Parity::Even
            },
        }
    }
}

impl From<u8> for Settings {
    ghost from_gives = { λ bits s. s ≡ settings_of bits };

    fn from(bits: u8) -> Settings {
        Settings::from(u16::from(bits))
    }
}
