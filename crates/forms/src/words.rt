// Words for people: levels and temperatures in people's form, modes, types and faults.
ghost use Rattle.putting.specs.Adds.{Adds, HasRoom};
ghost use Rattle.forms.specs.Words.{level_text, degrees_text, mode_text, type_text, fault_text};

use crate::form::{put_choice, put_form};
use putting::Text;

pub fn put_level(text: &mut Text, settings: u16, level: u16)
    requires { HasRoom text.old 43 }
    ensures { Adds (level_text settings level) 43 text.old text.new }
{
    let n = u32::from(level);
    match settings % 4 {
        0 => put_form(text, b"~ ft ~ ~/16 in", &[n / 192, n % 192 / 16, n % 16]),
        1 => put_form(text, b"~.~~ ft", &[n / 100, n / 10 % 10, n % 10]),
        _ => put_form(
            text,
            b"~.~~~ m",
            &[n / 1000, n / 100 % 10, n / 10 % 10, n % 10],
        ),
    }
}

// A temperature, which stands 8000 higher.
pub fn put_degrees(text: &mut Text, n: u16)
    requires { HasRoom text.old 29 }
    ensures { Adds (degrees_text n) 29 text.old text.new }
{
    let wide = u32::from(n);
    if wide < 8000 {
        let below = [(8000 - wide) / 10, (8000 - wide) % 10];
        put_form(text, b"-~.~ &#176;", &below);
    } else {
        let above = [(wide - 8000) / 10, (wide - 8000) % 10];
        put_form(text, b"~.~ &#176;", &above);
    }
}

pub fn put_mode(text: &mut Text, settings: u16)
    requires { HasRoom text.old 22 }
    ensures { Adds (mode_text settings) 22 text.old text.new }
{
    put_choice(
        text,
        b"fractional, 1/16 inch|decimal, 1/100 foot|20 m, millimetres|30 m, millimetres",
        usize::from(settings % 4),
        &[],
    );
}

pub fn put_type(text: &mut Text, settings: u16)
    requires { HasRoom text.old 22 }
    ensures { Adds (type_text settings) 22 text.old text.new }
{
    put_choice(
        text,
        b"type 1900, even parity|type 1800, even parity|type 1900, odd parity|type 1800, odd parity",
        usize::from(settings / 4 % 4),
        &[],
    );
}

// By number and place and not by `Fault`, since a page's table of counts goes by number.
pub fn put_fault(text: &mut Text, n: u8, place: u8)
    requires { HasRoom text.old 31 }
    ensures { Adds (fault_text n place) 31 text.old text.new }
{
    put_choice(
        text,
        b"no fault|no reply|wrong length|no start bit|wrong address|wrong parity|fill bit set|unreadable digit ~|level out of range|unreadable temperature",
        usize::from(n),
        &[u32::from(place)],
    );
}
