// Days and moments in words: dates where the day of minute 0 is known, else days counted from it.
ghost use Rattle.putting.specs.Adds.{Adds, HasRoom};
ghost use Rattle.forms.specs.Days.{two_digits, year_text, month_day_text, date_text, day_text, moment_text};

use crate::form::put_form;
use calendar::Day;
use listing::text::put_number;
use putting::Text;

fn put_two(text: &mut Text, n: u32)
    requires { HasRoom text.old 2 }
    ensures { Adds (two_digits n) 2 text.old text.new }
{
    text.byte(b'0' + (n / 10 % 10) as u8);
    text.byte(b'0' + (n % 10) as u8);
}

pub fn put_year(text: &mut Text, year: u32)
    requires { HasRoom text.old 10 }
    ensures { Adds (year_text year) 10 text.old text.new }
{
    if year < 10_000 {
        put_two(text, year / 100);
        put_two(text, year % 100);
    } else {
        put_number(text, year);
    }
}

pub fn put_month_day(text: &mut Text, d: Day)
    requires { HasRoom text.old 5 }
    ensures { Adds (month_day_text d) 5 text.old text.new }
{
    put_two(text, d.month);
    text.byte(b'-');
    put_two(text, d.day);
}

fn put_date(text: &mut Text, d: Day)
    requires { HasRoom text.old 16 }
    ensures { Adds (date_text d) 16 text.old text.new }
{
    put_year(text, d.year);
    text.byte(b'-');
    put_month_day(text, d);
}

// A day, so many days after that of minute 0.
fn put_day(text: &mut Text, begin: Option<Day>, n: u32)
    requires { HasRoom text.old 16 }
    ensures { Adds (day_text begin n) 16 text.old text.new }
{
    match begin {
        Some(day) => put_date(text, calendar::after(day, n)),
        None => put_form(text, b"day ~", &[n]),
    }
}

pub fn put_moment(text: &mut Text, begin: Option<Day>, minute: u32)
    requires { HasRoom text.old 23 }
    ensures { Adds (moment_text begin minute) 23 text.old text.new }
{
    put_day(text, begin, minute / 1440);
    text.word(b", ");
    put_two(text, minute / 60 % 24);
    text.byte(b':');
    put_two(text, minute % 60);
}
