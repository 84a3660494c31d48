// Days and months of the calendar, one after another.
ghost use Rattle.std.specs.Prelude.{◌≡◌};
ghost use Rattle.calendar.specs.Days.{february_days, days_in, month_after, year_after};

#[derive(Clone, Copy)]
pub struct Day {
    pub year: u32,
    pub month: u32,
    pub day: u32,
}

pub(crate) fn february(year: u32) -> u32
    ensures { result ≡ february_days year }
{
    if year % 4 == 0 && (year % 100 != 0 || year % 400 == 0) {
        29
    } else {
        28
    }
}

// How many days a month has.
pub(crate) fn days_in(year: u32, month: u32) -> u32
    ensures { result ≡ days_in year month }
{
    match month {
        2 => february(year),
        4 | 6 | 9 | 11 => 30,
        _ => 31,
    }
}

pub(crate) fn next_month(month: u32) -> u32
    ensures { result ≡ month_after month }
{
    if month < 12 { month + 1 } else { 1 }
}

// No minute is so late that the last year comes.
pub(crate) fn year_after(year: u32, month: u32) -> u32
    ensures { result ≡ year_after year month }
{
    if month < 12 {
        year
    } else {
        year.saturating_add(1)
    }
}
