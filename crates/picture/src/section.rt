// The section of a pair: heading, rows of pictures, figures and faults.
ghost use Rattle.std.specs.Prelude.{◌≡◌, ◌+◌, ◌-◌, ◌*◌, ◌≤◌, length};
ghost use Rattle.sheet.specs.Slots.{list_of};
ghost use Rattle.summary.specs.Line.{pair_of};
ghost use Rattle.summary.specs.Worked.{entries_of_pair};
ghost use Rattle.putting.specs.Adds.{Adds, HasRoom};
ghost use Rattle.layers.specs.Layers.{number_of};
ghost use Rattle.picture.specs.Page.{value_text, label_text, scale_text, begin_text, frame_text, level_row, heat_row, mark_row, rows_text, heading_text, section_text};

use crate::axis::{Axis, put_days};
use crate::figures::put_figures;
use calendar::Day;
use forms::form::{put_choice, put_form};
use forms::words::{put_degrees, put_level, put_mode, put_type};
use layers::Layer;
use layers::gauge::{Gauged, gauge};
use layers::noting::Noted;
use layers::pass::put_parts;
use putting::Text;
use summary::Line;

// A number of a layer's scale in people's form; marks have no scale.
fn put_value(text: &mut Text, layer: Layer, settings: u16, n: u16)
    requires { HasRoom text.old 43 }
    ensures { Adds (value_text (number_of layer) settings n) 43 text.old text.new }
{
    match layer {
        Layer::Levels => put_level(text, settings, n),
        Layer::Temperatures => put_degrees(text, n),
        _ => {}
    }
}

fn put_label(text: &mut Text, layer: Layer)
    requires { HasRoom text.old 11 }
    ensures { Adds (label_text (number_of layer)) 11 text.old text.new }
{
    put_choice(
        text,
        b"level|temperature|faults|alarm 1|alarm 0",
        layer.number() as usize,
        &[],
    );
}

// The scale beside a frame: its highest number, what it is of, its lowest number.
fn put_scale(text: &mut Text, layer: Layer, settings: u16, high: u16, low: u16)
    requires { HasRoom text.old 170 }
    ensures { Adds (scale_text (number_of layer) settings high low) 170 text.old text.new }
{
    text.word(b"<div class='row'><div class='y'><span>");
    put_value(text, layer, settings, high);
    text.word(b"</span><b>");
    put_label(text, layer);
    text.word(b"</b><span>");
    put_value(text, layer, settings, low);
    text.word(b"</span></div>");
}

// What a layer's frame shows: its pair's address, so many minutes from the first, and so many of the layer's numbers up to the top.
#[derive(Clone, Copy)]
struct View {
    layer: Layer,
    address: u16,
    from: u32,
    top: u32,
    span: u32,
    height: u32,
}

// The beginning of a layer's frame.
fn put_begin(text: &mut Text, v: View)
    requires { HasRoom text.old 320 }
    ensures { Adds (begin_text (number_of v.layer) v.address v.from v.top v.span v.height) 320 text.old text.new }
{
    let numbers = [
        u32::from(v.layer.number()),
        v.from,
        v.top,
        v.span,
        v.height,
        u32::from(v.address),
    ];
    put_form(
        text,
        b"<svg class='l~' viewBox='~ -~ ~ ~' preserveAspectRatio='none' role='img'><title>~: ",
        &numbers,
    );
    put_choice(
        text,
        b"level</title><desc>a point for each good reply, at its minute and level, joined where no faulty reply lies between</desc><g transform='scale(1,-1)'><path d='|temperature</title><desc>a point for each good reply that has a temperature, joined where no other reply lies between</desc><g transform='scale(1,-1)'><path d='|faulty replies</title><desc>a bar for each, at its minute</desc><g>|alarm 1</title><desc>a round dot for each good reply that has it</desc><g>|alarm 0</title><desc>a square dot for each good reply that has it</desc><g>",
        v.layer.number() as usize,
        &[],
    );
}

// A layer in its frame.
fn put_frame(text: &mut Text, noted: Noted, v: View, begin: Option<Day>)
    requires { HasRoom text.old (345 + 104 * length (entries_of_pair noted.pair (list_of noted.sheet.now))) }
    ensures { Adds (frame_text begin (list_of noted.entry.sheet.now) noted.entry.pair (number_of v.layer) v.address v.from v.top v.span v.height)
        (345 + 104 * length (entries_of_pair noted.entry.pair (list_of noted.entry.sheet.now))) text.old text.new }
{
    put_begin(text, v);
    put_parts(text, noted, v.layer, begin);
    put_choice(
        text,
        b"'/></g></svg></div>\n|'/></g></svg></div>\n|</g></svg></div>\n|</g></svg></div>\n|</g></svg></div>\n",
        v.layer.number() as usize,
        &[],
    );
}

fn height(low: u16, high: u16, more: u32) -> u32
    requires { more ≤ 1000 }
    ensures { result ≡ high - low + more }
{
    u32::from(high.saturating_sub(low)) + more
}

fn put_heading(text: &mut Text, x: Line)
    requires { HasRoom text.old 94 }
    ensures { Adds (heading_text x) 94 text.old text.new }
{
    put_form(text, b"<section><h2>~ <small>", &[u32::from(x.address)]);
    put_mode(text, x.settings);
    text.word(b"; ");
    put_type(text, x.settings);
    text.word(b"</small></h2>\n");
}

// A pair and its line of the summary: the slots noted of it, and the axis of the page.
#[derive(Clone, Copy)]
pub(crate) struct Section<'a> {
    pub(crate) noted: Noted<'a>,
    pub(crate) axis: Axis,
    pub(crate) line: Line,
    ghost of_line: { noted.pair ≡ pair_of line },
}

impl<'a> Section<'a> {
    // The row of the levels.
    fn put_level_row(self, text: &mut Text)
        requires { HasRoom text.old (515 + 104 * length (entries_of_pair (pair_of self.line) (list_of self.noted.sheet.now))) }
        ensures { Adds (level_row (list_of self.entry.noted.sheet.now) self.entry.axis self.entry.line)
            (515 + 104 * length (entries_of_pair (pair_of self.entry.line) (list_of self.entry.noted.sheet.now))) text.old text.new }
    {
        let x = self.line;
        if x.good == 0 {
            text.word(b"<p>No reply was good, so no level is drawn.</p>\n");
            return;
        }
        let v = View {
            layer: Layer::Levels,
            address: x.address,
            from: self.axis.from,
            top: u32::from(x.highest) + 1,
            span: self.axis.span,
            height: height(x.lowest, x.highest, 2),
        };
        put_scale(text, v.layer, x.settings, x.highest, x.lowest);
        put_frame(text, self.noted, v, self.axis.begin);
    }

    // The row of the temperatures, where there are some.
    fn put_heat_row(self, text: &mut Text, g: Gauged)
        requires { HasRoom text.old (515 + 104 * length (entries_of_pair (pair_of self.line) (list_of self.noted.sheet.now))) }
        ensures { Adds (heat_row (list_of self.entry.noted.sheet.now) self.entry.axis self.entry.line g)
            (515 + 104 * length (entries_of_pair (pair_of self.entry.line) (list_of self.entry.noted.sheet.now))) text.old text.new }
    {
        if g.warm < g.cold {
            return;
        }
        let v = View {
            layer: Layer::Temperatures,
            address: self.line.address,
            from: self.axis.from,
            top: u32::from(g.warm) + 10,
            span: self.axis.span,
            height: height(g.cold, g.warm, 20),
        };
        put_scale(text, v.layer, self.line.settings, g.warm, g.cold);
        put_frame(text, self.noted, v, self.axis.begin);
    }

    // A row of marks.
    fn put_mark_row(self, text: &mut Text, layer: Layer)
        requires { HasRoom text.old (515 + 104 * length (entries_of_pair (pair_of self.line) (list_of self.noted.sheet.now))) }
        ensures { Adds (mark_row (list_of self.entry.noted.sheet.now) self.entry.axis self.entry.line (number_of layer))
            (515 + 104 * length (entries_of_pair (pair_of self.entry.line) (list_of self.entry.noted.sheet.now))) text.old text.new }
    {
        let v = View {
            layer,
            address: self.line.address,
            from: self.axis.from,
            top: 0,
            span: self.axis.span,
            height: 1,
        };
        put_scale(text, layer, 0, 0, 0);
        put_frame(text, self.noted, v, self.axis.begin);
    }

    // The rows of the pair, and the days under them.
    fn put_rows(self, text: &mut Text, g: Gauged)
        requires { HasRoom text.old (2900 + 520 * length (entries_of_pair (pair_of self.line) (list_of self.noted.sheet.now))) }
        ensures { Adds (rows_text (list_of self.entry.noted.sheet.now) self.entry.axis self.entry.line g)
            (2900 + 520 * length (entries_of_pair (pair_of self.entry.line) (list_of self.entry.noted.sheet.now))) text.old text.new }
    {
        self.put_level_row(text);
        self.put_heat_row(text, g);
        self.put_mark_row(text, Layer::Faults);
        self.put_mark_row(text, Layer::Alarm1);
        self.put_mark_row(text, Layer::Alarm0);
        put_days(text, self.axis);
    }

    pub(crate) fn put(self, text: &mut Text)
        requires { HasRoom text.old (4600 + 624 * length (entries_of_pair (pair_of self.line) (list_of self.noted.sheet.now))) }
        ensures { Adds (section_text (list_of self.entry.noted.sheet.now) self.entry.axis self.entry.line)
            (4600 + 624 * length (entries_of_pair (pair_of self.entry.line) (list_of self.entry.noted.sheet.now))) text.old text.new }
    {
        let g = gauge(self.noted);
        put_heading(text, self.line);
        self.put_rows(text, g);
        put_figures(text, self.line, g, self.axis.begin);
        text.word(b"<details><summary>faulty replies one by one</summary><ul>");
        put_parts(text, self.noted, Layer::FaultList, self.axis.begin);
        text.word(b"</ul></details></section>\n");
    }
}
