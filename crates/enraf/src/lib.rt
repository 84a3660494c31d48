// Item records of the 854 gauge on a CIU, read and written (document 02, request 13). Each call takes every input; a bad one is refused by its
// number, and a refused write changes nothing. Both calls are exported as they stand.
#![tactic(auto)]

mod check;
mod kind;
mod reading;
mod text;
mod writing;

ghost use Rattle.enraf.specs.Item.{item_of};
ghost use Rattle.enraf.specs.Reading.{ReadsItem};
ghost use Rattle.enraf.specs.Writing.{WritesItem};

use frame::Fault;
use kind::ItemKind;
use putting::Text;

// What reading a record answers: the data's characters from the first on and 0 after them; beside a refusal all else is 0.
#[repr(C)]
#[derive(Clone, Copy)]
pub struct ItemTold {
    pub characters: [u8; 16],
    pub error: u16,
    pub ciu: u8,
    pub gauge: u8,
    pub first: u8,
    pub second: u8,
    // 1 the item alone, 2 a setting, 3 taken, 4 a setting taken, 5 a value, 6 an error.
    pub kind: u8,
    pub length: u8,
    pub number: u8,
}

// What stands beside a refusal.
const NOTHING: ItemTold = ItemTold {
    characters: [0; 16],
    error: 0,
    ciu: 0,
    gauge: 0,
    first: 0,
    second: 0,
    kind: 0,
    length: 0,
    number: 0,
};

// What writing a record answers: the bytes written; beside a refusal 0.
#[repr(C)]
#[derive(Clone, Copy)]
pub struct Done {
    pub count: usize,
    pub number: u8,
}

// Reads a record. Refuses 29, 30, 31, 32.
pub fn sisal_read_item(bytes: &[u8]) -> ItemTold
    ensures { ReadsItem bytes.now result }
{
    match reading::read(bytes) {
        Ok(told) => told,
        Err(fault) => ItemTold {
            number: fault.number(),
            ..NOTHING
        },
    }
}

// Writes a record. The addresses are wide, so that a wildcard, which document 002 numbers from 100 on, arrives as it was meant. Refuses 31, 32, 33.
pub fn sisal_write_item(
    ciu: u16,
    gauge: u16,
    first: u8,
    second: u8,
    kind: u8,
    error: u16,
    characters: &[u8],
    out: &mut [u8],
) -> Done
    ensures { WritesItem (item_of ciu gauge first second kind error characters.now) out.old result out.new }
{
    if 9 < ciu || 99 < gauge {
        return writing::refusal(Fault::BadAddresses);
    }
    let Ok(kind) = ItemKind::try_from(kind) else {
        return writing::refusal(Fault::BadItem);
    };
    if !text::fits(first, second, kind, error, characters) {
        return writing::refusal(Fault::BadItem);
    }
    let size = 10 + writing::tail_size(kind, error, characters);
    if out.len() < size {
        return writing::refusal(Fault::ShortItem);
    }
    let mut text = Text { out, at: 0 };
    writing::put_head(&mut text, ciu, gauge, first, second);
    writing::put_tail(&mut text, kind, error, characters);
    writing::put_end(&mut text);
    Done {
        count: size,
        number: 0,
    }
}
