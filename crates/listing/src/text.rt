// Numbers put into a text in decimal, as `putting` puts words. What is public here is for other crates that write text: they ask for room themselves, as
// these calls want it.
ghost use Rattle.std.specs.Prelude.{◌≡◌, length};
ghost use Rattle.listing.specs.Text.{in_decimal};
ghost use Rattle.putting.specs.Adds.{Adds, HasRoom};

use putting::Text;

// How many digits a number has: at least one, where `ilog10` has no answer for 0.
fn digits_in(n: u32) -> usize
    ensures { result ≡ length (in_decimal n) }
{
    match n {
        0..=9 => 1,
        10..=99 => 2,
        100..=999 => 3,
        1_000..=9_999 => 4,
        10_000..=99_999 => 5,
        100_000..=999_999 => 6,
        1_000_000..=9_999_999 => 7,
        10_000_000..=99_999_999 => 8,
        100_000_000..=999_999_999 => 9,
        _ => 10,
    }
}

// A number in decimal, put from its last digit forward: by recursion, as it is defined, a listing takes a fifth longer.
pub fn put_number(text: &mut Text, n: u32)
    requires { HasRoom text.old (length (in_decimal n)) }
    ensures { Adds (in_decimal n) 10 text.old text.new }
{
    let end = text.at + digits_in(n);
    let mut left = n;
    for i in (text.at..end).rev() {
        text.out[i] = b'0' + (left % 10) as u8;
        left /= 10;
    }
    text.at = end;
}

// A number of 16 bits: at most five digits.
pub fn put_short(text: &mut Text, n: u16)
    requires { HasRoom text.old 5 }
    ensures { Adds (in_decimal n) 5 text.old text.new }
{
    put_number(text, u32::from(n));
}
