// An item's text: letters, characters of data, and what may follow the letters.
ghost use Rattle.std.specs.Prelude.{◌≡◌};
ghost use Rattle.enraf.specs.Item.{is_character, is_data, kind_fits, item_of, text_fits};
ghost use Rattle.enraf.specs.Inside.{kind_number};

use crate::kind::ItemKind;

// A character of data: printable, and none of the three signs.
fn is_character(b: u8) -> bool
    ensures { result ≡ is_character b }
{
    matches!(b, 0x20..=0x7e) && !matches!(b, b'&' | b'!' | b'=')
}

// Data: 1 to 16 characters. The length is asked first, so that a long part costs nothing.
fn is_data(part: &[u8]) -> bool
    ensures { result ≡ is_data part.now }
{
    matches!(part.len(), 1..=16) && part.iter().all(|b| is_character(*b))
}

// Data stands in the kinds that have data, an error's number in an error, and neither elsewhere.
#[tactic(auto, unfolding(crate::specs::Item::kind_fits))]
fn kind_fits(kind: ItemKind, error: u16, characters: &[u8]) -> bool
    ensures { result ≡ kind_fits (kind_number kind) error characters.now }
{
    match kind {
        ItemKind::Alone | ItemKind::Taken => characters.is_empty() && error == 0,
        ItemKind::Setting | ItemKind::SettingTaken | ItemKind::Value => is_data(characters)
            && error == 0,
        ItemKind::Failed => characters.is_empty() && error <= 999,
    }
}

#[tactic(auto, unfolding(crate::specs::Item::text_fits))]
pub(crate) fn fits(first: u8, second: u8, kind: ItemKind, error: u16, characters: &[u8]) -> bool
    ensures { result ≡ text_fits (item_of 0 0 first second (kind_number kind) error characters.now) }
{
    first.is_ascii_uppercase() && second.is_ascii_uppercase() && kind_fits(kind, error, characters)
}
