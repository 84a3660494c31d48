// The four modes. Each mode's type carries its constants, and a level is read and written by those of its own mode.
ghost use Rattle.std.specs.Prelude.{◌≡◌, ◌<◌, ◌^◌};
ghost use Rattle.frame.specs.declared.constants.Constants.{Constants};
ghost use Rattle.frame.specs.Level.{Mode as PaperMode, mode_of, put_level, fractional_mode, decimal_mode, twenty_metre_mode, thirty_metre_mode};
ghost use Rattle.frame.specs.Inside.Packed.{level_code};
ghost use Rattle.frame.specs.Inside.Constants.{Fits, fractional, decimal_feet, metres20, metres30, codes_by};
ghost use Rattle.frame.specs.Inside.Fitting.{fractional_fits, decimal_fits, metres20_fits, metres30_fits};

use crate::constants::Constants;
use crate::{level, level_writing, pairs};

// A mode: its constants, and the codes of a level's digits.
trait Mode {
    // The mode as document 01 has it.
    ghost paper: { PaperMode };

    ghost CONSTANTS: { Constants };

    const CONSTANTS: Constants;

    fn codes(v: u64) -> u64
        ensures { (result ≡ codes_by CONSTANTS v) × (result < 2 ^ 20) };

    // The constants give what the mode says.
    ghost fits: { Fits paper CONSTANTS };
}

// The level of a line in a mode: the level, or 2 ^ 16 times the fault, to which 7 adds the place of the digit in no chart. Fill is tested before
// code, code before range.
fn read<M: Mode>(n: u64) -> u64
    ensures { result ≡ level_code M.paper n }
{
    let k = M::CONSTANTS;
    if !k.fill_clear(n) {
        return 6 * level::FAULT;
    }
    let v = level::read_digits(k.charts, k.digits, k.digit_bits(n), k.start, 0, 0);
    level::judged(k.largest, v)
}

// The bits of a level in a mode.
fn write<M: Mode>(v: u64) -> u64
    ensures { result ≡ put_level M.paper v }
{
    M::CONSTANTS.placed(v, M::codes(v))
}

// Feet, inches and sixteenths.
#[derive(Clone, Copy)]
struct Fractional;

impl Mode for Fractional {
    const CONSTANTS: Constants = Constants {
        digits: 4,
        first: 17,
        after: 6,
        largest: 15359,
        charts: 0x5432,
        start: false,
    };

    ghost paper = { fractional_mode };

    ghost CONSTANTS = { fractional };

    ghost fits = { fractional_fits };

    // Sixteenths, inches, feet, feet tens.
    fn codes(v: u64) -> u64 {
        level_writing::ones_code(5, v, v / 16)
            + 16 * level_writing::ones_code(4, v / 16, v / 192)
            + 256 * level_writing::ones_code(3, v / 192, v / 1920)
            + 4096 * level_writing::first_code(2, v / 1920, Self::CONSTANTS.start)
    }
}

// Feet and hundredths.
#[derive(Clone, Copy)]
struct Decimal;

impl Mode for Decimal {
    const CONSTANTS: Constants = Constants {
        digits: 4,
        first: 17,
        after: 6,
        largest: 7999,
        charts: 0x3332,
        start: false,
    };

    ghost paper = { decimal_mode };

    ghost CONSTANTS = { decimal_feet };

    ghost fits = { decimal_fits };

    // Hundredths, tenths, feet, feet tens.
    fn codes(v: u64) -> u64 {
        level_writing::three_decimals(v)
            + 4096 * level_writing::first_code(2, v / 1000, Self::CONSTANTS.start)
    }
}

// 20 m, in millimetres.
#[derive(Clone, Copy)]
struct Metres20;

impl Mode for Metres20 {
    const CONSTANTS: Constants = Constants {
        digits: 5,
        first: 16,
        after: 5,
        largest: 19999,
        charts: 0x33330,
        start: false,
    };

    ghost paper = { twenty_metre_mode };

    ghost CONSTANTS = { metres20 };

    ghost fits = { metres20_fits };

    fn codes(v: u64) -> u64 {
        level_writing::five_digits(0, v, Self::CONSTANTS.start)
    }
}

// 30 m, in millimetres.
#[derive(Clone, Copy)]
struct Metres30;

impl Mode for Metres30 {
    const CONSTANTS: Constants = Constants {
        digits: 5,
        first: 16,
        after: 4,
        largest: 32699,
        charts: 0x33331,
        start: false,
    };

    ghost paper = { thirty_metre_mode };

    ghost CONSTANTS = { metres30 };

    ghost fits = { metres30_fits };

    fn codes(v: u64) -> u64 {
        level_writing::five_digits(1, v, Self::CONSTANTS.start)
    }
}

// The level of a line in the mode of this number: the level, or 2 ^ 16 times the fault. There is one reader, and each mode hands it its constants. Feet
// or metres are asked first, and then which: two jumps with two ways each, where a choice of four at once becomes one jump by the number, which
// a processor guesses worse where modes come mixed.
pub(crate) fn read_level(mode: u64, n: u64) -> u64
    ensures { result ≡ level_code (mode_of mode) n }
{
    if mode < 2 {
        if mode == 0 {
            return read::<Fractional>(n);
        }
        return read::<Decimal>(n);
    }
    if mode == 2 {
        return read::<Metres20>(n);
    }
    read::<Metres30>(n)
}

// The constants of the mode of this number, those that its type carries.
pub(crate) fn constants_of(mode: u64) -> Constants
    ensures { Fits (mode_of mode) result }
{
    match mode {
        0 => Fractional::CONSTANTS,
        1 => Decimal::CONSTANTS,
        2 => Metres20::CONSTANTS,
        _ => Metres30::CONSTANTS,
    }
}

// The same as `read_level`, two digits at a time where all digits are decimal. The mode's constants are handed over as they were picked.
pub(crate) fn read_level_by_pairs(mode: u64, k: Constants, n: u64) -> u64
    requires { Fits (mode_of mode) k }
    ensures { result ≡ level_code (mode_of mode) n }
{
    if mode == 0 {
        return read::<Fractional>(n);
    }
    pairs::read_by(k, n)
}

// The bits of a level in the mode of this number, asked for as in `read_level`; the fill is 0.
pub(crate) fn write_level(mode: u64, v: u64) -> u64
    ensures { result ≡ put_level (mode_of mode) v }
{
    if mode < 2 {
        if mode == 0 {
            return write::<Fractional>(v);
        }
        return write::<Decimal>(v);
    }
    if mode == 2 {
        return write::<Metres20>(v);
    }
    write::<Metres30>(v)
}
