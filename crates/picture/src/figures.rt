// The figures of a pair in a table: levels, temperatures, and how many replies were of each kind.
ghost use Rattle.std.specs.Prelude.{◌≡◌, ◌+◌, ◌-◌, ◌≤◌, ◌<◌, ltb, length};
ghost use Rattle.frame.specs.Pick.{pick};
ghost use Rattle.putting.specs.Adds.{Adds, HasRoom};
ghost use Rattle.picture.specs.Page.{bound_text, last_text, heat_text, off_text, kind_text, kinds_text, levels_text, figures_text};

use calendar::Day;
use forms::days::put_moment;
use forms::form::{put_choice, put_form};
use forms::words::{put_degrees, put_fault, put_level};
use layers::gauge::Gauged;
use putting::Text;
use summary::Line;

fn put_bound(text: &mut Text, settings: u16, n: u16)
    requires { HasRoom text.old 43 }
    ensures { Adds (bound_text settings n) 43 text.old text.new }
{
    if n == 0xffff {
        text.word(b"none");
    } else {
        put_level(text, settings, n);
    }
}

fn put_last(text: &mut Text, settings: u16, g: Gauged, begin: Option<Day>)
    requires { HasRoom text.old 68 }
    ensures { Adds (last_text begin settings g) 68 text.old text.new }
{
    if g.last == 0xffff {
        text.word(b"none");
    } else {
        put_level(text, settings, g.last);
        text.word(b", ");
        put_moment(text, begin, g.when);
    }
}

fn put_heat(text: &mut Text, g: Gauged)
    requires { HasRoom text.old 62 }
    ensures { Adds (heat_text g) 62 text.old text.new }
{
    if g.warm < g.cold {
        text.word(b"none");
    } else {
        put_degrees(text, g.cold);
        text.word(b" to ");
        put_degrees(text, g.warm);
    }
}

// How many temperatures were off the scale, on one side of it.
fn put_off(text: &mut Text, which: usize, n: u32)
    requires { HasRoom text.old 40 }
    ensures { Adds (off_text which n) 40 text.old text.new }
{
    if n != 0 {
        put_choice(
            text,
            b"; ~ above the scale|; ~ below the scale",
            which,
            &[n],
        );
    }
}

// The number of a kind's fault: 7 of the kinds that are places of an unreadable digit.
fn fault_of(k: usize) -> u8
    ensures { result ≡ pick (ltb k 10) k 7 }
{
    if k < 10 { k as u8 } else { 7 }
}

fn put_kind(text: &mut Text, n: u32, k: usize)
    requires k_bound { k < 19 }
    requires room { HasRoom text.old 44 }
    ensures { Adds (kind_text n k) 44 text.old text.new }
{
    if n != 0 {
        put_form(text, b"; ~ ", &[n]);
        put_fault(text, fault_of(k), k.saturating_sub(10) as u8);
    }
}

// How many replies had each fault.
fn put_kinds(text: &mut Text, counts: [u32; 19])
    requires { HasRoom text.old 660 }
    ensures { Adds (kinds_text counts 1 15) 660 text.old text.new }
{
    for k in 1..16 {
        put_kind(text, counts[k], k);
    }
}

fn put_levels(text: &mut Text, x: Line, g: Gauged, begin: Option<Day>)
    requires { HasRoom text.old 290 }
    ensures { Adds (levels_text begin x g) 290 text.old text.new }
{
    text.word(b"<table><tr><th>lowest</th><td>");
    put_bound(text, x.settings, x.lowest);
    text.word(b"</td></tr><tr><th>highest</th><td>");
    put_bound(text, x.settings, x.highest);
    text.word(b"</td></tr><tr><th>last</th><td>");
    put_last(text, x.settings, g, begin);
}

pub(crate) fn put_figures(text: &mut Text, x: Line, g: Gauged, begin: Option<Day>)
    requires { HasRoom text.old 1230 }
    ensures { Adds (figures_text begin x g) 1230 text.old text.new }
{
    put_levels(text, x, g, begin);
    text.word(b"</td></tr><tr><th>temperature</th><td>");
    put_heat(text, g);
    put_off(text, 0, g.counts[16]);
    put_off(text, 1, g.counts[17]);
    put_form(
        text,
        b"</td></tr><tr><th>replies</th><td>~ good, ~ faulty",
        &[x.good, x.faulty],
    );
    put_kinds(text, g.counts);
    text.word(b"</td></tr></table>");
}
