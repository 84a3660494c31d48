// A row's gauge byte: bits 0 and 1 its sensor profile, 1 copper, 2 platinum, bit 2 the mark of a 6500; the rest is not read.
ghost use Rattle.std.specs.Prelude.{◌≡◌, not};
ghost use Rattle.board.specs.Gauge.{profile_of, has_profile, profile_number, is6500, beyond_ends, beyond_profile, outside, outside_by, profile_misplaced, gauge_told, unmarked, at_once};
ghost use Rattle.board.specs.Inside.Profiles.{profile_by};

use frame::{Temperature, kinds};

// The ends of a profile in tenths of a degree Fahrenheit (document 000, Table 14): 100 ohm copper, and DIN platinum.
const COPPER_LOWEST: i16 = -1000;

const COPPER_HIGHEST: i16 = 4000;

const PLATINUM_LOWEST: i16 = -2340;

const PLATINUM_HIGHEST: i16 = 5020;

// What a row's sensor may be.
#[derive(Clone, Copy)]
pub(crate) enum Profile {
    Copper,
    Platinum,
}

impl Profile {
    // The profile that a gauge byte names: 3 is none, as 0 is.
    fn of(gauge: u8) -> Option<Profile>
        ensures { profile_by result ≡ profile_of gauge }
    {
        match gauge % 4 {
            1 => Some(Profile::Copper),
            2 => Some(Profile::Platinum),
            _ => None,
        }
    }
}

// Whether a row is marked as a 6500.
pub(crate) fn has_mark(gauge: u8) -> bool
    ensures { result ≡ is6500 gauge }
{
    gauge / 4 % 2 == 1
}

// Raise or reset to a row without the mark.
pub(crate) fn unmarked(gauge: u8, raise: u8, reset: u8) -> bool
    ensures { result ≡ unmarked gauge raise reset }
{
    !has_mark(gauge) && (raise != 0 || reset != 0)
}

// Raise and reset at once.
pub(crate) fn at_once(raise: u8, reset: u8) -> bool
    ensures { result ≡ at_once raise reset }
{
    raise != 0 && reset != 0
}

// Whether a profile is given on a type 1800.
pub(crate) fn misplaced(settings: u8, gauge: u8) -> bool
    ensures { result ≡ profile_misplaced settings gauge }
{
    kinds::of_1800(settings) && Profile::of(gauge).is_some()
}

// The ends are allowed.
fn beyond_ends(lowest: i16, highest: i16, d: i16) -> bool
    ensures { result ≡ beyond_ends lowest highest d }
{
    !(lowest..=highest).contains(&d)
}

fn beyond_profile(gauge: u8, d: i16) -> bool
    ensures { result ≡ beyond_profile (profile_of gauge) d }
{
    match Profile::of(gauge) {
        Some(Profile::Copper) => beyond_ends(COPPER_LOWEST, COPPER_HIGHEST, d),
        Some(Profile::Platinum) => beyond_ends(PLATINUM_LOWEST, PLATINUM_HIGHEST, d),
        None => false,
    }
}

// A temperature that is no number of degrees is not checked.
fn outside(gauge: u8, t: Temperature) -> bool
    ensures { result ≡ outside (profile_of gauge) t }
{
    match t {
        Temperature::Degrees(d) => beyond_profile(gauge, d),
        _ => false,
    }
}

// Whether a temperature is outside the profile of a row with these settings; that of an 1800 is not checked.
pub(crate) fn outside_by(settings: u8, gauge: u8, t: Temperature) -> bool
    ensures { result ≡ outside_by settings gauge t }
{
    !kinds::of_1800(settings) && outside(gauge, t)
}

// The profile's number, 0 where there is none.
fn number(bulb: Option<Profile>) -> u8
    ensures { result ≡ profile_number (profile_by bulb) }
{
    match bulb {
        Some(Profile::Copper) => 1,
        Some(Profile::Platinum) => 2,
        None => 0,
    }
}

// What is told of the byte: the profile's number, and 4 more with the mark.
pub(crate) fn told(gauge: u8) -> u8
    ensures { result ≡ gauge_told gauge }
{
    number(Profile::of(gauge)) + 4 * u8::from(has_mark(gauge))
}
