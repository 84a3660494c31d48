// A name in the page's own writing.
ghost use Rattle.std.specs.Prelude.{◌≡◌, ◌≤◌, length};
ghost use Rattle.putting.specs.Adds.{HasRoom};

use forms::form::put_form;
use putting::Text;

// What shows a byte: itself, or a question mark where it is no printing letter of ASCII.
fn shown(byte: u8) -> u8 {
    if matches!(byte, b' '..=b'~') {
        byte
    } else {
        b'?'
    }
}

// The page's text has other uses for these five.
fn is_marked(byte: u8) -> bool {
    matches!(byte, b'&' | b'<' | b'>' | b'"' | b'\'')
}

// A letter of the name, as its number where it is one of the five. A name that is too long for the output is cut.
fn put_letter(text: &mut Text, byte: u8)
    requires { HasRoom text.old 0 }
    ensures same { text.new.out.ghost_name ≡ text.old.out.ghost_name }
    ensures room { HasRoom text.new 0 }
{
    if text.out.len() - text.at < 16 {
        return;
    }
    if is_marked(byte) {
        put_form(text, b"&#~;", &[u32::from(byte)]);
    } else {
        text.byte(shown(byte));
    }
}

// Puts a name into an output, and answers how many bytes it takes.
pub(crate) fn escape(name: &[u8], out: &mut [u8]) -> usize
    ensures { result ≤ length out.new }
{
    let mut text = Text { out, at: 0 };
    for &byte in name {
        put_letter(&mut text, byte);
    }
    text.at
}
