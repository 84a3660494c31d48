// Writing a record: its parts are put one after another, straight into the output.
ghost use Rattle.std.specs.Prelude.{◌≡◌, true, [], ◌∷◌, ◌+◌, ◌-◌, ◌/◌, ◌%◌, ◌≤◌, length, take, drop, set};
ghost use Rattle.putting.specs.Digit.{digit};
ghost use Rattle.putting.specs.Adds.{Adds, HasRoom};
ghost use Rattle.frame.specs.Faults.{number_of};
ghost use Rattle.enraf.specs.Item.{digit_characters, kind_fits, tail_of};
ghost use Rattle.enraf.specs.Check.{block_check};
ghost use Rattle.enraf.specs.Record.{STX, ETX, B, Z};
ghost use Rattle.enraf.specs.Inside.{kind_number};
ghost use Rattle.enraf.specs.Writing.{done};

use crate::Done;
use crate::check::block_check;
use crate::kind::ItemKind;
use frame::Fault;
use putting::Text;

pub(crate) fn refusal(fault: Fault) -> Done
    ensures { result ≡ done 0 (number_of fault) }
{
    Done {
        count: 0,
        number: fault.number(),
    }
}

// The bytes that follow the letters.
#[tactic(auto, unfolding(crate::specs::Item::tail_of))]
pub(crate) fn tail_size(kind: ItemKind, error: u16, characters: &[u8]) -> usize
    requires { kind_fits (kind_number kind) error characters.now ≡ true }
    ensures { (result ≡ length (tail_of (kind_number kind) error characters.now)) × (result ≤ 18) }
{
    match kind {
        ItemKind::Alone => 0,
        ItemKind::Setting => characters.len() + 1,
        ItemKind::Taken => 1,
        ItemKind::SettingTaken => characters.len() + 2,
        ItemKind::Value => characters.len(),
        ItemKind::Failed => 4,
    }
}

// STX, the addresses, B, Z and the letters.
pub(crate) fn put_head(text: &mut Text, ciu: u16, gauge: u16, first: u8, second: u8)
    requires room { HasRoom text.old 8 }
    requires ciu_bound { ciu ≤ 9 }
    requires gauge_bound { gauge ≤ 99 }
    ensures { Adds (STX ∷ digit ciu ∷ digit (gauge / 10) ∷ digit (gauge % 10) ∷ B ∷ Z ∷ first ∷ second ∷ []) 8 text.old text.new }
{
    text.word(&[
        0x02,
        b'0' + ciu as u8,
        b'0' + (gauge / 10) as u8,
        b'0' + (gauge % 10) as u8,
        b'B',
        b'Z',
        first,
        second,
    ]);
}

// An error's number in three digits.
fn put_three(text: &mut Text, n: u16)
    requires room { HasRoom text.old 3 }
    requires n_bound { n ≤ 999 }
    ensures { Adds (digit_characters n) 3 text.old text.new }
{
    text.word(&[
        b'0' + (n / 100) as u8,
        b'0' + (n / 10 % 10) as u8,
        b'0' + (n % 10) as u8,
    ]);
}

// Data, character by character: the data and the output both lie in the host's memory, and of a copy at once the compiler makes `memmove`, which the archive
// asks of no host.
fn put_data(text: &mut Text, characters: &[u8])
    requires { HasRoom text.old (length characters.now) }
    ensures { Adds characters.now (length characters.now) text.old text.new }
{
    for character in characters {
        text.byte(*character);
    }
}

// What follows the letters.
pub(crate) fn put_tail(text: &mut Text, kind: ItemKind, error: u16, characters: &[u8])
    requires characters_value { kind_fits (kind_number kind) error characters.now ≡ true }
    requires room { HasRoom text.old (length (tail_of (kind_number kind) error characters.now)) }
    ensures { Adds (tail_of (kind_number kind) error characters.now) 18 text.old text.new }
{
    match kind {
        ItemKind::Alone => {}
        ItemKind::Setting => {
            text.byte(b'=');
            put_data(text, characters);
        }
        ItemKind::Taken => text.byte(b'&'),
        ItemKind::SettingTaken => {
            text.byte(b'=');
            put_data(text, characters);
            text.byte(b'&');
        }
        ItemKind::Value => put_data(text, characters),
        ItemKind::Failed => {
            text.byte(b'!');
            put_three(text, error);
        }
    }
}

// The block check of what is put, the STX left out.
fn check_of(text: &Text) -> u8
    requires some { 1 ≤ text.now.at }
    requires in_bounds { text.now.at ≤ length text.now.out.now }
    ensures { result ≡ block_check (take (text.now.at - 1) (drop 1 text.now.out.now)) }
{
    let end = text.at;
    block_check(&text.out[1..end])
}

// ETX, and the block check of all that stands before it but the STX.
pub(crate) fn put_end(text: &mut Text)
    requires some { 1 ≤ text.old.at }
    requires room { HasRoom text.old 2 }
    ensures { Adds (ETX ∷ block_check (take text.old.at (drop 1 (set text.old.out.now text.old.at ETX))) ∷ []) 2 text.old text.new }
{
    text.byte(0x03);
    let check = check_of(text);
    text.byte(check);
}
