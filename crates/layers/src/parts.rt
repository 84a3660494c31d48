// What one record adds to a layer of its pair's picture.
ghost use Rattle.std.specs.Prelude.{◌≡◌, false, ltb};
ghost use Rattle.std.specs.Option.{is_some};
ghost use Rattle.frame.specs.Pick.{pick};
ghost use Rattle.frame.specs.Faults.{place_named};
ghost use Rattle.frame.specs.Faults as faults;
ghost use Rattle.putting.specs.Adds.{Adds, HasRoom};
ghost use Rattle.layers.specs.Drawing.{heat_value, value_in, point_text, alarm_shown, fault_mark, mark_text};
ghost use Rattle.layers.specs.Layers.{number_of};

use crate::layer::Layer;
use crate::noting::Seen;
use calendar::Day;
use forms::days::put_moment;
use forms::form::{put_choice, put_form};
use forms::words::put_fault;
use frame::{Fault, Reading, Temperature, is_plus, magnitude};
use putting::Text;

// A temperature's place on its line: 8000 higher, so that no sign is needed.
fn heat_value(t: Temperature) -> Option<u16>
    ensures { result ≡ heat_value t }
{
    let Temperature::Degrees(d) = t else {
        return None;
    };
    let m = magnitude(d) as u16;
    if is_plus(d) {
        Some(8000 + m)
    } else {
        Some(8000u16.saturating_sub(m))
    }
}

// What a reply has on the line of levels, and on that of temperatures.
pub(crate) fn level_in(reply: Result<Reading, Fault>) -> Option<u16>
    ensures { result ≡ value_in 0 reply }
{
    Some(reply.ok()?.level)
}

pub(crate) fn heat_in(reply: Result<Reading, Fault>) -> Option<u16>
    ensures { result ≡ value_in 1 reply }
{
    heat_value(reply.ok()?.temperature)
}

fn put_point(text: &mut Text, joined: bool, minute: u32, value: Option<u16>)
    requires { HasRoom text.old 24 }
    ensures { Adds (point_text joined minute value) 24 text.old text.new }
{
    if let Some(y) = value {
        put_choice(
            text,
            b"M~,~h0|L~,~",
            usize::from(joined),
            &[minute, u32::from(y)],
        );
    }
}

fn alarm_shown(layer: Layer, r: Reading) -> bool
    ensures { result ≡ alarm_shown (number_of layer) r }
{
    match layer {
        Layer::Alarm1 => r.alarm1,
        Layer::Alarm0 => r.alarm0,
        _ => false,
    }
}

// The place that a fault names, or 0.
fn place_in(fault: Fault) -> u8
    ensures { result ≡ place_named fault }
{
    match fault {
        Fault::InNoChart(place) => place,
        _ => 0,
    }
}

fn put_faulty(text: &mut Text, layer: Layer, minute: u32, fault: Fault, begin: Option<Day>)
    requires { HasRoom text.old 104 }
    ensures { Adds (fault_mark begin (number_of layer) minute (faults.number_of fault) (place_named fault)) 104 text.old text.new }
{
    let form = match layer {
        Layer::Faults => 0,
        Layer::FaultList => 1,
        _ => return,
    };
    put_choice(text, b"<path d='M~,0v1'><title>|<li>", form, &[minute]);
    put_moment(text, begin, minute);
    text.word(b": ");
    put_fault(text, fault.number(), place_in(fault));
    put_choice(text, b"</title></path>|</li>", form, &[]);
}

fn put_mark(text: &mut Text, layer: Layer, seen: Seen, begin: Option<Day>)
    requires { HasRoom text.old 104 }
    ensures { Adds (mark_text begin (number_of layer) seen.minute seen.reply) 104 text.old text.new }
{
    match seen.reply {
        Ok(r) if alarm_shown(layer, r) => put_form(text, b"<path d='M~,0h1'/>", &[seen.minute]),
        Ok(_) => {}
        Err(fault) => put_faulty(text, layer, seen.minute, fault, begin),
    }
}

// Answers whether a line goes on from the part.
pub(crate) fn put_part(
    text: &mut Text,
    layer: Layer,
    joined: bool,
    seen: Seen,
    begin: Option<Day>,
) -> bool
    requires { HasRoom text.old 104 }
    ensures adds { Adds (pick (ltb (number_of layer) 2) (point_text joined seen.minute (value_in (number_of layer) seen.reply)) (mark_text begin (number_of layer) seen.minute seen.reply)) 104
        text.old text.new }
    ensures joined_value { result ≡ pick (ltb (number_of layer) 2) (is_some (value_in (number_of layer) seen.reply)) false }
{
    let value = match layer {
        Layer::Levels => level_in(seen.reply),
        Layer::Temperatures => heat_in(seen.reply),
        _ => {
            put_mark(text, layer, seen, begin);
            return false;
        }
    };
    put_point(text, joined, seen.minute, value);
    value.is_some()
}
