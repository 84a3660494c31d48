// A day read from text.
ghost use Rattle.std.specs.Prelude.{◌≤◌, ◌<◌, IfSome};
ghost use Rattle.calendar.specs.Days.{days_in};

use crate::counting::{Day, days_in};

// What two digits say; none where one is no digit.
fn two_digits(a: u8, b: u8) -> Option<u32>
    ensures { IfSome result (λ n. n < 100) }
{
    match (a, b) {
        (b'0'..=b'9', b'0'..=b'9') => Some(10 * u32::from(a - b'0') + u32::from(b - b'0')),
        _ => None,
    }
}

// The day that ten bytes write, as 2026-11-01; none where they write no day of the calendar.
pub fn day_in(text: &[u8]) -> Option<Day>
    ensures { IfSome result (λ d. (0 < d.day) × (d.day ≤ days_in d.year d.month)) }
{
    let [y1, y2, y3, y4, b'-', m1, m2, b'-', d1, d2] = *text else {
        return None;
    };
    let year = 100 * two_digits(y1, y2)? + two_digits(y3, y4)?;
    let month = two_digits(m1, m2)?;
    let day = two_digits(d1, d2)?;
    if month < 1 || 12 < month || day < 1 || days_in(year, month) < day {
        return None;
    }
    Some(Day { year, month, day })
}
