// Days far away, counted on in leaps: to the next January, then by four hundred years, by years, and by months.
ghost use Rattle.std.specs.Prelude.{◌≡◌, ◌≤◌, ◌<◌, MatchOption};
ghost use Rattle.calendar.specs.Days.{days_in, year_days, days_from};
ghost use Rattle.calendar.specs.Inside.Leaps.{day_of, LeapsTo};

use crate::counting::{Day, days_in, february, next_month, year_after};

// A month, and how many days are left to count from its first day.
#[derive(Clone, Copy)]
pub(crate) struct Rest {
    pub(crate) year: u32,
    pub(crate) month: u32,
    pub(crate) left: u64,
}

impl Rest {
    // The first of the next month; none where the days end in this one.
    fn a_month_on(self) -> Option<Rest>
        ensures { MatchOption result (self.left < days_in self.year self.month) (λ r. LeapsTo self r) }
    {
        let size = days_in(self.year, self.month);
        let left = self.left.checked_sub(u64::from(size))?;
        Some(Rest {
            year: year_after(self.year, self.month),
            month: next_month(self.month),
            left,
        })
    }

    // From one January to the next; none where the days end in this year, or it is another month.
    fn a_year_on(self) -> Option<Rest>
        ensures { MatchOption result Unit (λ r. LeapsTo self r) }
    {
        if self.month != 1 {
            return None;
        }
        let left = self.left.checked_sub(days_of(self.year))?;
        Some(Rest {
            year: year_after(self.year, 12),
            left,
            ..self
        })
    }

    // On to the next January, or to the month where the days end before it.
    fn to_january(self) -> Rest
        ensures { day_of result ≡ day_of self }
    {
        let mut r = self;
        // No `for` fits: how many months there are to go hangs on the days that each has.
        while r.month != 1 {
            let Some(next) = r.a_month_on() else {
                return r;
            };
            r = next;
        }
        r
    }

    // Any four hundred years have 146,097 days. Years and days so many that a sum might be too large are left to the smaller steps.
    fn by_centuries(self) -> Rest
        ensures { day_of result ≡ day_of self }
    {
        let many = self.left / 146_097;
        if self.month != 1 || 100_000 < many || 4_000_000_000 < self.year {
            return self;
        }
        Rest {
            year: self.year + 400 * (many as u32),
            left: self.left - 146_097 * many,
            ..self
        }
    }

    fn by_years(self) -> Rest
        ensures { day_of result ≡ day_of self }
    {
        let mut r = self;
        // No `for` fits: how many years there are to go hangs on the days that each has.
        while let Some(next) = r.a_year_on() {
            r = next;
        }
        r
    }

    // Month by month to the day itself.
    fn by_months(self) -> Day
        ensures { result ≡ day_of self }
    {
        let mut r = self;
        // No `for` fits: how many months there are to go hangs on the days that each has.
        while let Some(next) = r.a_month_on() {
            r = next;
        }
        Day {
            year: r.year,
            month: r.month,
            day: r.left as u32 + 1,
        }
    }
}

// How many days a year has.
fn days_of(year: u32) -> u64
    ensures { result ≡ year_days year }
{
    337 + u64::from(february(year))
}

// The day that comes so many days after another, whose month's days before it are counted too.
pub fn after(begin: Day, days: u32) -> Day
    ensures { result ≡ days_from begin days }
{
    let over = begin.day.saturating_sub(1);
    let first = Rest {
        year: begin.year,
        month: begin.month,
        left: u64::from(days) + u64::from(over),
    };
    let january = first.to_january();
    january.by_centuries().by_years().by_months()
}
