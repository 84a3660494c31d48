// Reading a record.
ghost use Rattle.std.specs.Prelude.{◌≡◌, ◌++◌, true, ◌-◌, ◌≤◌, length, replicate};
ghost use Rattle.frame.specs.Faults.{verdict};
ghost use Rattle.enraf.specs.Item.{is_digit, kind_in, error_in, characters_in};
ghost use Rattle.enraf.specs.Inside.{kind_number};
ghost use Rattle.enraf.specs.Reading.{framed, check_right, addressed, item_in, read_fault, told_in_integers};

use crate::check::block_check;
use crate::kind::ItemKind;
use crate::{ItemTold, text};
use frame::Fault;

// STX, B, Z and ETX stand in their places.
#[tactic(auto, unfolding(crate::specs::Reading::framed))]
fn is_framed(bytes: &[u8]) -> bool
    requires { 10 ≤ length bytes.now }
    ensures { result ≡ framed bytes.now }
{
    bytes[0] == 0x02 && bytes[4] == b'B' && bytes[5] == b'Z' && bytes[bytes.len() - 2] == 0x03
}

// The last byte is the block check of all before it but the STX.
fn is_checked(bytes: &[u8]) -> bool
    requires { 10 ≤ length bytes.now }
    ensures { result ≡ check_right bytes.now }
{
    let last = bytes.len() - 1;
    bytes[last] == block_check(&bytes[1..last])
}

#[tactic(auto, unfolding(crate::specs::Reading::addressed))]
fn is_addressed(bytes: &[u8]) -> bool
    requires { 10 ≤ length bytes.now }
    ensures { result ≡ addressed bytes.now }
{
    bytes[1].is_ascii_digit() && bytes[2].is_ascii_digit() && bytes[3].is_ascii_digit()
}

// The number of a decimal digit.
fn digit_of(b: u8) -> u8
    requires { is_digit b ≡ true }
    ensures { (result ≡ b - 0x30) × (result ≤ 9) }
{
    b - b'0'
}

// The kind that follows from what stands behind the letters.
#[tactic(auto, unfolding(crate::specs::Item::kind_in))]
fn kind_in(tail: &[u8]) -> ItemKind
    ensures { kind_number result ≡ kind_in tail.now }
{
    match tail {
        [] => ItemKind::Alone,
        [b'=', .., b'&'] => ItemKind::SettingTaken,
        [b'=', ..] => ItemKind::Setting,
        [b'&'] => ItemKind::Taken,
        [b'!', a, b, c] if a.is_ascii_digit() && b.is_ascii_digit() && c.is_ascii_digit() => {
            ItemKind::Failed
        }
        _ => ItemKind::Value,
    }
}

// The number of an error, 0 in the other kinds.
fn error_in(tail: &[u8], kind: ItemKind) -> u16
    requires { kind_number kind ≡ kind_in tail.now }
    ensures { result ≡ error_in tail.now }
{
    match kind {
        ItemKind::Failed => u16::from(digit_of(tail[1])) * 100
            + u16::from(digit_of(tail[2])) * 10
            + u16::from(digit_of(tail[3])),
        ItemKind::Alone
        | ItemKind::Setting
        | ItemKind::Taken
        | ItemKind::SettingTaken
        | ItemKind::Value => 0,
    }
}

// The data in what stands behind the letters, nothing in the kinds without data.
fn characters_in(tail: &[u8], kind: ItemKind) -> &[u8]
    requires { kind_number kind ≡ kind_in tail.now }
    ensures { result.now ≡ characters_in tail.now }
{
    match kind {
        ItemKind::Setting => &tail[1..],
        ItemKind::SettingTaken => &tail[1..tail.len() - 1],
        ItemKind::Value => tail,
        ItemKind::Alone | ItemKind::Taken | ItemKind::Failed => &[],
    }
}

// Data with 0 after it.
fn sixteen(part: &[u8]) -> [u8; 16]
    requires { length part.now ≤ 16 }
    ensures { result ≡ part.now ++ replicate (16 - length part.now) 0 }
{
    let mut characters = [0; 16];
    characters[..part.len()].copy_from_slice(part);
    characters
}

// What a record says, or the first refusal that applies.
pub(crate) fn read(bytes: &[u8]) -> Result<ItemTold, Fault>
    ensures { result ≡ verdict (read_fault bytes.now) (told_in_integers (item_in bytes.now)) }
{
    let [_, ciu, tens, ones, _, _, first, second, tail @ .., _, _] = bytes else {
        return Err(Fault::BadFraming);
    };
    if !is_framed(bytes) {
        return Err(Fault::BadFraming);
    }
    if !is_checked(bytes) {
        return Err(Fault::BadBlockCheck);
    }
    if !is_addressed(bytes) {
        return Err(Fault::BadAddresses);
    }
    let kind = kind_in(tail);
    let error = error_in(tail, kind);
    let characters = characters_in(tail, kind);
    if !text::fits(*first, *second, kind, error, characters) {
        return Err(Fault::BadItem);
    }
    Ok(ItemTold {
        characters: sixteen(characters),
        error,
        ciu: digit_of(*ciu),
        gauge: digit_of(*tens) * 10 + digit_of(*ones),
        first: *first,
        second: *second,
        kind: u8::from(kind),
        length: characters.len() as u8,
        number: 0,
    })
}
