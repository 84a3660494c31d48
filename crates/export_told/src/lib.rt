// What the calls below answer, told in integers.
#![tactic(auto)]

ghost use Rattle.std.specs.Prelude.{◌≡◌};
ghost use Rattle.frame.specs.Faults.{number_of, place_named};
ghost use Rattle.export_told.specs.Told.{poll_told, reading_told, refused_told, reply_told, written_told, saved_told, counted_told, bare_told, count_fits, slot_told};

use frame::{Fault, Poll, Reading, kinds};
use sheet::{Found, Looked};

// What reading a poll answers: raise and reset are 0 or 1; beside a refusal all else is 0.
#[repr(C)]
#[derive(Clone, Copy, PartialEq, Eq)]
pub struct PollTold {
    pub address: u16,
    pub raise: u8,
    pub reset: u8,
    pub number: u8,
}

// What reading a reply answers: alarms are 0 or 1; beside a refusal all else is 0, but for the place beside 7.
#[repr(C)]
#[derive(Clone, Copy, PartialEq, Eq)]
pub struct ReplyTold {
    pub level: u16,
    pub tenths: i16,
    // As in a row of the board: 0 no reading, 1 degrees, 2 above, 3 below, 4 absent.
    pub kind: u8,
    pub alarm1: u8,
    pub alarm0: u8,
    pub number: u8,
    // Beside number 7 the place of the first digit in no chart, counted from 0 at the top; else 0.
    pub place: u8,
}

// What writing, saving and counting answer: the bytes written, the stores made or the slots there are; beside a refusal 0.
#[repr(C)]
#[derive(Clone, Copy, PartialEq, Eq)]
pub struct Done {
    pub count: usize,
    pub number: u8,
}

// What looking at a slot answers: of a record what it says, its reply bytes from the first on; all else is 0.
#[repr(C)]
#[derive(Clone, Copy, PartialEq, Eq)]
pub struct SlotTold {
    pub reply: [u8; 8],
    pub minute: u32,
    pub address: u16,
    pub settings: u8,
    pub count: u8,
    // 0 beside a refusal, 1 blank, 2 spoiled, 3 a record, 4 foreign.
    pub state: u8,
    pub number: u8,
}

impl From<Result<Poll, Fault>> for PollTold {
    ghost from_gives = { λ answer told. told ≡ poll_told answer };

    fn from(answer: Result<Poll, Fault>) -> PollTold {
        match answer {
            Ok(poll) => PollTold {
                address: poll.address,
                raise: kinds::marked(poll.raise),
                reset: kinds::marked(poll.reset),
                number: 0,
            },
            Err(fault) => PollTold {
                address: 0,
                raise: 0,
                reset: 0,
                number: fault.number(),
            },
        }
    }
}

// A reading with the kind and the tenths of its temperature.
impl From<Reading> for ReplyTold {
    ghost from_gives = { λ reading told. told ≡ reading_told reading };

    fn from(reading: Reading) -> ReplyTold {
        let t = reading.temperature;
        ReplyTold {
            level: reading.level,
            tenths: kinds::tenths_of(t),
            kind: kinds::kind_of(t),
            alarm1: kinds::marked(reading.alarm1),
            alarm0: kinds::marked(reading.alarm0),
            number: 0,
            place: 0,
        }
    }
}

// A reply that was refused: its number, and the place beside 7.
impl From<Fault> for ReplyTold {
    ghost from_gives = { λ fault told. told ≡ refused_told (number_of fault) (place_named fault) };

    fn from(fault: Fault) -> ReplyTold {
        ReplyTold {
            level: 0,
            tenths: 0,
            kind: 0,
            alarm1: 0,
            alarm0: 0,
            number: fault.number(),
            place: match fault {
                Fault::InNoChart(place) => place,
                _ => 0,
            },
        }
    }
}

impl From<Result<Reading, Fault>> for ReplyTold {
    ghost from_gives = { λ answer told. told ≡ reply_told answer };

    fn from(answer: Result<Reading, Fault>) -> ReplyTold {
        match answer {
            Ok(reading) => ReplyTold::from(reading),
            Err(fault) => ReplyTold::from(fault),
        }
    }
}

// The bytes written, the stores made, the slots counted: what is told of them is the same in specs/Told.antt.
impl From<Result<usize, Fault>> for Done {
    ghost from_gives = { λ answer told. (told ≡ written_told answer) × ((told ≡ saved_told answer) × (told ≡ counted_told answer)) };

    fn from(answer: Result<usize, Fault>) -> Done {
        match answer {
            Ok(count) => Done { count, number: 0 },
            Err(fault) => Done {
                count: 0,
                number: fault.number(),
            },
        }
    }
}

// A slot that holds no record.
fn bare(reply: [u8; 8], state: u8, number: u8) -> SlotTold
    ensures { result ≡ bare_told reply state number }
{
    SlotTold {
        reply,
        minute: 0,
        address: 0,
        settings: 0,
        count: 0,
        state,
        number,
    }
}

// No `From`, which has no `requires`: a bit count has to fit its byte.
pub fn slot(looked: Looked) -> SlotTold
    requires { count_fits looked.found }
    ensures { result ≡ slot_told looked }
{
    let reply = looked.reply;
    match looked.found {
        Found::Blank => bare(reply, 1, 0),
        Found::Spoiled => bare(reply, 2, 0),
        Found::Record(head) => SlotTold {
            reply,
            minute: head.minute,
            address: head.address,
            settings: head.settings,
            count: head.count as u8,
            state: 3,
            number: 0,
        },
        Found::Foreign => bare(reply, 4, 0),
        Found::Refused(fault) => bare(reply, 0, fault.number()),
    }
}
