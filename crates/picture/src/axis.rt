// The axis that all pictures of a page share: whole days, from that of the earliest record to that of the latest.
ghost use Rattle.std.specs.Prelude.{◌≡◌, ◌+◌, ◌-◌, ◌*◌, ◌/◌, ◌≤◌, ◌<◌, length};
ghost use Rattle.putting.specs.Adds.{Adds, HasRoom};
ghost use Rattle.picture.specs.Axis.{axis_of};
ghost use Rattle.picture.specs.Page.{date_on_axis, day_on_axis, tick_of, days_text};

use calendar::Day;
use forms::days::{put_month_day, put_year};
use forms::form::put_form;
use putting::Text;

// The day of minute 0, where it is given; the first minute of the first day and its width in minutes; how many days it has, how many of them lie from tick to tick, the days of the ticks, and how many of the five
// are shown.
#[derive(Clone, Copy)]
pub(crate) struct Axis {
    pub(crate) begin: Option<Day>,
    pub(crate) from: u32,
    pub(crate) span: u32,
    pub(crate) days: u32,
    pub(crate) step: u32,
    pub(crate) ticks: [u32; 5],
    pub(crate) shown: u32,
}

// How many days from one minute to another, both counted in.
fn days_in(first: u32, last: u32) -> u32
    ensures value { result ≡ last / 1440 - first / 1440 + 1 }
    ensures upper_bound { result ≤ 2982617 }
{
    (last / 1440).saturating_sub(first / 1440) + 1
}

pub(crate) fn axis_of(begin: Option<Day>, first: u32, last: u32) -> Axis
    ensures { result ≡ axis_of begin first last }
{
    let days = days_in(first, last);
    let step = (days + 4) / 5;
    let day = first / 1440;
    Axis {
        begin,
        from: day * 1440,
        span: days.saturating_mul(1440),
        days,
        step,
        ticks: [
            day,
            day + step,
            day + 2 * step,
            day + 3 * step,
            day + 4 * step,
        ],
        shown: (days - 1) / step + 1,
    }
}

fn put_axis_date(text: &mut Text, d: Day)
    requires { HasRoom text.old 22 }
    ensures { Adds (date_on_axis d) 22 text.old text.new }
{
    put_year(text, d.year);
    text.word(b"-<wbr/>");
    put_month_day(text, d);
}

fn put_axis_day(text: &mut Text, begin: Option<Day>, n: u32)
    requires { HasRoom text.old 22 }
    ensures { Adds (day_on_axis begin n) 22 text.old text.new }
{
    match begin {
        Some(day) => put_axis_date(text, calendar::after(day, n)),
        None => put_form(text, b"~", &[n]),
    }
}

// The day of a tick, where it is shown.
fn put_tick(text: &mut Text, a: Axis, i: usize)
    requires i_bound { i < length a.ticks }
    requires room { HasRoom text.old 35 }
    ensures { Adds (tick_of a i) 35 text.old text.new }
{
    if i < a.shown as usize {
        text.word(b"<span>");
        put_axis_day(text, a.begin, a.ticks[i]);
        text.word(b"</span>");
    }
}

// The row of the days.
pub(crate) fn put_days(text: &mut Text, a: Axis)
    requires { HasRoom text.old 255 }
    ensures { Adds (days_text a) 255 text.old text.new }
{
    text.word(b"<div class='row'><div class='y'><b>day</b></div><div class='axis'>");
    for i in 0..5 {
        put_tick(text, a, i);
    }
    text.word(b"</div></div>\n");
}
