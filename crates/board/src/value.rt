// The board by value: an array of 30 rows, of which those behind the rows lent are free. One pass finds all that a call asks of it; each
// call then decides, in the order of the documents, over which places a row is carried, or that none changes.
ghost use Rattle.std.specs.Prelude.{◌≡◌, ◌<◌, ◌≤◌, IfSome};
ghost use Rattle.board.specs.Inside.ByValue.{FindsOn, Bounded, passed, over_row, Says, change_of, faulty_hearing, read_hearing, hearing_of, said_of, EnrolsOn, HearsOn, RemovesOn, LooksOn, MayPollOn, PollsOn};

use crate::{Heard, Looked, Row, gauge, rows};
use frame::{Fault, Reading};

// The way a row is carried.
#[derive(Clone, Copy)]
pub enum Way {
    Onward,
    Back,
}

// A row is carried over a run of `count` places: each takes the row that comes, the first `row`, and hands on the one that stood in it. The
// places go on from `at`, or back from the one before it.
#[derive(Clone, Copy)]
pub struct Change {
    pub at: usize,
    pub count: usize,
    pub way: Way,
    pub row: Row,
}

// What hearing makes of a row, and what is wrong with the reply, which its row then counts.
#[derive(Clone, Copy)]
pub struct Hearing {
    pub change: Change,
    pub wrong: Option<Fault>,
}

// What a pass over the rows has seen so far, where none was out of order: how many are free, and how many of those in use have a smaller
// address than the one asked for; and the least address that may follow, which is above them all once a free row was passed.
#[derive(Clone, Copy, Default)]
pub(crate) struct Search {
    pub vacant: usize,
    pub below: usize,
    pub least: u32,
}

// What a search for an address finds among n rows that count and are kept in order: the address's row, where it has one, which then stands at
// `spot`; the place of the first free row; and the place where the address stands or is to stand.
#[derive(Clone, Copy)]
pub struct Found {
    pub n: usize,
    pub row: Option<Row>,
    pub free: usize,
    pub spot: usize,
}

impl Search {
    // One row more has been passed, unless it is out of order. What may follow a free row is above every address, so that it can only be free:
    // an address is 16 bits.
    fn pass(self, row: Row, address: u16) -> Option<Search>
        requires { (self.vacant < 30) × (self.below < 30) }
        ensures passes { Says (over_row address (passed self) row) result }
        ensures word { row.address < 0x10000 }
    {
        if row.is_free() {
            return Some(Search {
                vacant: self.vacant + 1,
                least: 0x10000,
                ..self
            });
        }
        if u32::from(row.address) < self.least {
            return None;
        }
        Some(Search {
            below: self.below + usize::from(row.address < address),
            least: u32::from(row.address) + 1,
            ..self
        })
    }
}

// Passes over all 30 places, of which those behind the rows lent are free, and ends at the first row that is out of order: then nothing is
// found. Two rows are passed in a turn.
pub fn find(held: [Row; 30], len: usize, address: u16) -> Option<Found>
    ensures { FindsOn held len address result }
{
    let mut s = Search::default();
    for two in held.as_chunks::<2>().0 {
        s = s.pass(two[0], address)?.pass(two[1], address)?;
    }
    let free = 30 - s.vacant;
    let own = s.below < free && held[s.below].address == address;
    Some(Found {
        n: len.min(30),
        row: if own { Some(held[s.below]) } else { None },
        free,
        spot: s.below,
    })
}

impl Change {
    // A row's change.
    fn of(at: usize, row: Row) -> Change
        ensures { result ≡ change_of at row }
    {
        Change {
            at,
            count: 1,
            way: Way::Onward,
            row,
        }
    }
}

impl Hearing {
    // A faulty reply: the row has the fault, and counts it.
    fn faulty(at: usize, row: Row, fault: Fault) -> Hearing
        ensures { result ≡ faulty_hearing at row fault }
    {
        Hearing {
            change: Change::of(at, row.with_fault(fault)),
            wrong: Some(fault),
        }
    }

    // What a reading makes of a row: it is set, or 26 where its temperature is outside the row's profile.
    fn read(at: usize, row: Row, minute: u32, reading: Reading) -> Hearing
        ensures { result ≡ read_hearing at row minute reading }
    {
        if gauge::outside_by(row.settings, row.gauge, reading.temperature) {
            return Hearing::faulty(at, row, Fault::OutsideProfile);
        }
        Hearing {
            change: Change::of(at, row.with_reading(reading, minute)),
            wrong: None,
        }
    }

    // What an answer of the frame makes of a row: a good reading is set if its temperature may be, a fault that counts is set, and 10 refuses.
    fn of(
        at: usize,
        row: Row,
        minute: u32,
        answer: Result<Reading, Fault>,
    ) -> Result<Hearing, Fault>
        ensures { result ≡ hearing_of at row minute answer }
    {
        match answer {
            Ok(reading) => Ok(Hearing::read(at, row, minute, reading)),
            Err(fault) => {
                if rows::sets_fault(fault.number()) {
                    return Ok(Hearing::faulty(at, row, fault));
                }
                Err(fault)
            }
        }
    }
}

// Enrolling: 38, 10, 11, 27, 18, 19. The rows from the new one's place up to the first free one move on by one.
pub fn enrol(found: Option<Found>, settings: u8, address: u16, gauge: u8) -> Result<Change, Fault>
    requires { IfSome found Bounded }
    ensures { EnrolsOn found settings address gauge result }
{
    let Some(f) = found else {
        return Err(Fault::OutOfOrder);
    };
    if 15 < settings {
        return Err(Fault::BadSettings);
    }
    if 999 < address {
        return Err(Fault::BadAddress);
    }
    if gauge::misplaced(settings, gauge) {
        return Err(Fault::ProfileOn1800);
    }
    if f.row.is_some() {
        return Err(Fault::Twice);
    }
    if f.n <= f.free {
        return Err(Fault::NoRow);
    }
    Ok(Change {
        at: f.spot,
        count: f.free - f.spot + 1,
        way: Way::Onward,
        row: Row::new(settings, address, gauge),
    })
}

// What hearing answers, by what is wrong.
pub fn said(wrong: Option<Fault>) -> Heard
    ensures { result ≡ said_of wrong }
{
    match wrong {
        Some(fault) => Heard {
            number: fault.number(),
            place: rows::place_in(fault),
        },
        None => Heard {
            number: 0,
            place: 0,
        },
    }
}

// Hearing: 38, 11, 14, 17, then what the frame answers by the row's settings, and 26 by the row's profile.
pub fn hear(
    found: Option<Found>,
    minute: u32,
    address: u16,
    count: usize,
    reply: &[u8],
) -> Result<Hearing, Fault>
    ensures { HearsOn found minute address count reply.now result }
{
    let Some(f) = found else {
        return Err(Fault::OutOfOrder);
    };
    if 999 < address {
        return Err(Fault::BadAddress);
    }
    if !frame::formed(count, reply) {
        return Err(Fault::BadForm);
    }
    let Some(row) = f.row else {
        return Err(Fault::Unknown);
    };
    let answer = frame::read_reply(row.settings, address, count, reply);
    Hearing::of(f.spot, row.heard_at(minute), minute, answer)
}

// Removing: 38, 11, 17. The rows behind the one found move up by one, from the last in use on, whose place is left free.
pub fn remove(found: Option<Found>, address: u16) -> Result<Change, Fault>
    requires { IfSome found Bounded }
    ensures { RemovesOn found address result }
{
    let Some(f) = found else {
        return Err(Fault::OutOfOrder);
    };
    if 999 < address {
        return Err(Fault::BadAddress);
    }
    if f.row.is_none() {
        return Err(Fault::Unknown);
    }
    Ok(Change {
        at: f.free,
        count: f.free - f.spot,
        way: Way::Back,
        row: Row::free(),
    })
}

// Looking: 38, 11, 17.
pub fn look(found: Option<Found>, address: u16) -> Result<Looked, Fault>
    ensures { LooksOn found address result }
{
    let f = found.ok_or(Fault::OutOfOrder)?;
    if 999 < address {
        return Err(Fault::BadAddress);
    }
    let Some(row) = f.row else {
        return Err(Fault::Unknown);
    };
    Ok(row.tell())
}

// Whether a row may be polled so: 38, 11, 17, 28. Raise or reset is only for a marked row, and never both.
pub fn may_poll(found: Option<Found>, address: u16, raise: u8, reset: u8) -> Result<(), Fault>
    ensures { MayPollOn found address raise reset result }
{
    let Some(f) = found else {
        return Err(Fault::OutOfOrder);
    };
    if 999 < address {
        return Err(Fault::BadAddress);
    }
    let Some(row) = f.row else {
        return Err(Fault::Unknown);
    };
    if gauge::unmarked(row.gauge, raise, reset) || gauge::at_once(raise, reset) {
        return Err(Fault::RaiseOrReset);
    }
    Ok(())
}

// Writes the poll of a row that may be polled so: 15.
pub fn poll(
    found: Option<Found>,
    address: u16,
    raise: u8,
    reset: u8,
    out: &mut [u8],
) -> Result<usize, Fault>
    ensures { PollsOn found address raise reset out.old result out.new }
{
    may_poll(found, address, raise, reset)?;
    frame::write_poll(address, raise != 0, reset != 0, out)
}
