// What stands in a field of a record's line.
use calendar::Day;
use frame::Temperature;
use print::{Mode, Settings};
use std::fmt;

// A minute; where minute 0 begins a day that is given, as day of the calendar and hour.
#[derive(Clone, Copy)]
pub(crate) struct Moment {
    pub(crate) begin: Option<Day>,
    pub(crate) minute: u32,
}

impl fmt::Display for Moment {
    fn fmt<W: fmt::Write>(&self, f: &mut fmt::Formatter<W>) -> fmt::Result {
        let minute = self.minute;
        let Some(begin) = self.begin else {
            return write!(f, "{minute}");
        };
        let Day { year, month, day } = calendar::after(begin, minute / 1440);
        write!(
            f,
            "{year:04}-{month:02}-{day:02} {:02}:{:02}",
            minute / 60 % 24,
            minute % 60
        )
    }
}

// A level and its unit: inches, whose sixteenths are 0.0625, feet or metres.
#[derive(Clone, Copy)]
pub(crate) struct Level {
    pub(crate) settings: Settings,
    pub(crate) level: u16,
}

impl fmt::Display for Level {
    fn fmt<W: fmt::Write>(&self, f: &mut fmt::Formatter<W>) -> fmt::Result {
        let n = u32::from(self.level);
        match self.settings.mode {
            Mode::Fractional => write!(f, "{}.{:04},in", n / 16, n % 16 * 625),
            Mode::Decimal => write!(f, "{}.{:02},ft", n / 100, n % 100),
            Mode::Metres20 | Mode::Metres30 => write!(f, "{}.{:03},m", n / 1000, n % 1000),
        }
    }
}

// Nothing where the reply has no temperature.
#[derive(Clone, Copy)]
pub(crate) struct Degrees(pub(crate) Temperature);

impl fmt::Display for Degrees {
    fn fmt<W: fmt::Write>(&self, f: &mut fmt::Formatter<W>) -> fmt::Result {
        match self.0 {
            Temperature::Degrees(tenths) => {
                let sign = if tenths < 0 { "-" } else { "" };
                let n = tenths.unsigned_abs();
                write!(f, "{sign}{}.{}", n / 10, n % 10)
            }
            Temperature::Above => f.write_str("above"),
            Temperature::Below => f.write_str("below"),
            Temperature::Absent => Ok(()),
        }
    }
}
