// Text with numbers in it, put by a form; and one of several forms, picked by a number.
ghost use Rattle.std.specs.Prelude.{◌≡◌, ◌==◌, ◌+◌, ◌*◌, length, slice_get, option_map};
ghost use Rattle.std.specs.List.{slice_split};
ghost use Rattle.putting.specs.Adds.{Adds, HasRoom};
ghost use Rattle.forms.specs.Form.{fill, choice};
ghost use Rattle.forms.specs.Inside.Bounds.{widest};

use listing::text::put_number;
use putting::Text;

// A form with its numbers put in: each takes at most ten digits in the place of one byte. A "~" stands for a number while one is left.
pub fn put_form(text: &mut Text, form: &[u8], numbers: &[u32])
    requires { HasRoom text.old (length form.now + 9 * length numbers.now) }
    ensures { Adds (fill form.now numbers.now) (length form.now + 9 * length numbers.now) text.old text.new }
{
    let mut left = numbers;
    for &byte in form {
        match left.split_first() {
            Some((n, rest)) if byte == b'~' => {
                left = rest;
                put_number(text, *n);
            }
            _ => text.byte(byte),
        }
    }
}

// One of several forms, a bar between them; none where there are fewer.
fn form_at(forms: &[u8], n: usize) -> Option<&[u8]>
    ensures { option_map (λ f. f.now) result ≡ slice_get (slice_split (λ b. b == 124) forms.now) n }
{
    forms.split(|b| *b == b'|').nth(n)
}

// One of several forms, with its numbers.
pub fn put_choice(text: &mut Text, forms: &[u8], n: usize, numbers: &[u32])
    requires { HasRoom text.old (widest forms.now + 9 * length numbers.now) }
    ensures { Adds (fill (choice n forms.now) numbers.now) (widest forms.now + 9 * length numbers.now) text.old text.new }
{
    let form = form_at(forms, n).unwrap_or(&[]);
    put_form(text, form, numbers);
}
