// An item record shown: the bytes that it is written as, and what they read as.
use enraf::ItemTold;
use print::{FaultNumber, Hex};
use std::{fmt, io};

// What a record is: the item alone, a setting, and so on. The discriminant is the number that the calls take and answer.
#[derive(Clone, Copy, PartialEq, Eq)]
pub(crate) enum Kind {
    Alone = 1,
    Setting = 2,
    Taken = 3,
    SettingTaken = 4,
    Value = 5,
    Error = 6,
    None = 7,
}

impl From<u8> for Kind {
    fn from(number: u8) -> Kind {
        match number {
            1 => Kind::Alone,
            2 => Kind::Setting,
            3 => Kind::Taken,
            4 => Kind::SettingTaken,
            5 => Kind::Value,
            6 => Kind::Error,
            _ => Kind::None,
        }
    }
}

impl fmt::Display for Kind {
    fn fmt<W: fmt::Write>(&self, f: &mut fmt::Formatter<W>) -> fmt::Result {
        f.write_str(match self {
            Kind::Alone => "alone",
            Kind::Setting => "setting",
            Kind::Taken => "taken",
            Kind::SettingTaken => "setting taken",
            Kind::Value => "value",
            Kind::Error => "error",
            Kind::None => "?",
        })
    }
}

// A record that is written.
#[derive(Clone, Copy)]
pub(crate) struct Item<'a> {
    pub(crate) ciu: u16,
    pub(crate) gauge: u16,
    pub(crate) letters: &'a [u8; 2],
    pub(crate) kind: Kind,
    pub(crate) error: u16,
    pub(crate) characters: &'a [u8],
}

// What an accepted record tells, in words.
fn told(rt: &impl Print, item: ItemTold) -> io::Result<()> {
    let kind = Kind::from(item.kind);
    let (first, second) = (char::from(item.first), char::from(item.second));
    print!(rt;
        " CIU {} gauge {} item {first}{second} {kind}",
        item.ciu, item.gauge
    )?;
    if item.length != 0 {
        print!(rt; " \"")?;
        rt.write_all(&item.characters[..16.min(usize::from(item.length))])?;
        print!(rt; "\"")?;
    }
    if kind == Kind::Error {
        print!(rt; " {}", item.error)?;
    }
    println!(rt)
}

fn answer(rt: &impl Print, item: ItemTold) -> io::Result<()> {
    if item.number != 0 {
        return println!(rt; " {}", FaultNumber(item.number));
    }
    told(rt, item)
}

// Writes an item, prints the bytes, reads them back and prints what they tell.
pub(crate) fn both_ways(rt: &impl Print, item: Item<'_>) -> io::Result<()> {
    let Item {
        ciu,
        gauge,
        letters: [first, second],
        kind,
        error,
        characters,
    } = item;
    let mut out = [0u8; 28];
    let done = enraf::sisal_write_item(
        ciu, gauge, *first, *second, kind as u8, error, characters, &mut out,
    );
    if done.number != 0 {
        return println!(rt; "write {}", FaultNumber(done.number));
    }
    let written = &out[..28.min(done.count)];
    print!(rt; "write{}\n read", Hex(written))?;
    answer(rt, enraf::sisal_read_item(written))
}

// An output of nine bytes is one too few for any record.
pub(crate) fn no_room(rt: &impl Print) -> io::Result<()> {
    let mut out = [0u8; 9];
    let done = enraf::sisal_write_item(5, 1, b'B', b'L', 1, 0, b"", &mut out);
    println!(rt; "write {}", FaultNumber(done.number))
}

pub(crate) fn read(rt: &impl Print, name: &str, bytes: &[u8]) -> io::Result<()> {
    print!(rt; "{name}:")?;
    answer(rt, enraf::sisal_read_item(bytes))
}
