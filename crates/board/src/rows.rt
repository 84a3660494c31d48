// One row by value: what it holds, and what becomes of it.
ghost use Rattle.std.specs.Prelude.{◌≡◌, replicate};
ghost use Rattle.frame.specs.Faults.{number_of, place_named};
ghost use Rattle.board.specs.Row.{free_row, new_row, is_free, with_reading, with_fault, place_told, heard_at, heard_told, sets_fault};
ghost use Rattle.board.specs.Calls.{row_told, refused_look};

use crate::{Looked, Row, gauge};
use frame::{Fault, Reading, kinds};

impl Row {
    // A free row is all zeros.
    pub(crate) fn free() -> Row
        ensures { result ≡ free_row }
    {
        Row::default()
    }

    pub(crate) fn new(settings: u8, address: u16, gauge: u8) -> Row
        ensures { result ≡ new_row settings address gauge }
    {
        Row {
            address,
            settings,
            gauge,
            used: 1,
            ..Row::free()
        }
    }

    pub(crate) fn is_free(self) -> bool
        ensures { result ≡ is_free self }
    {
        self.used == 0
    }

    pub(crate) fn with_reading(self, reading: Reading, minute: u32) -> Row
        ensures { result ≡ with_reading self reading minute }
    {
        Row {
            minute,
            level: reading.level,
            tenths: kinds::tenths_of(reading.temperature),
            kind: kinds::kind_of(reading.temperature),
            alarm1: u8::from(reading.alarm1),
            alarm0: u8::from(reading.alarm0),
            fault: 0,
            place: 0,
            faulty: 0,
            ..self
        }
    }

    // The row with the minute of a hearing that reached it.
    pub(crate) fn heard_at(self, minute: u32) -> Row
        ensures { result ≡ heard_at self minute }
    {
        Row {
            heard: minute,
            ..self
        }
    }

    // One faulty reply more; the count stays at its end.
    pub(crate) fn with_fault(self, fault: Fault) -> Row
        ensures { result ≡ with_fault self (number_of fault) (place_named fault) }
    {
        Row {
            fault: fault.number(),
            place: place_in(fault),
            faulty: self.faulty.saturating_add(1),
            ..self
        }
    }

    // The place that is told of a row: beside another fault than 7 none, whatever the host left there.
    fn place_told(self) -> u8
        ensures { result ≡ place_told self }
    {
        if self.fault == 7 { self.place } else { 0 }
    }

    // The minute that is told of a row: none, which is 0, where it has neither a reading nor a fault.
    fn heard_told(self) -> u32
        ensures { result ≡ heard_told self }
    {
        if self.kind == 0 && self.fault == 0 {
            0
        } else {
            self.heard
        }
    }

    // What looking at a row answers.
    pub(crate) fn tell(self) -> Looked
        ensures { result ≡ row_told self }
    {
        let told = Looked {
            address: self.address,
            settings: self.settings,
            gauge: gauge::told(self.gauge),
            fault: self.fault,
            place: self.place_told(),
            faulty: self.faulty,
            heard: self.heard_told(),
            ..Looked::default()
        };
        if self.kind == 0 {
            return told;
        }
        let t = kinds::temperature_by(self.kind, self.tenths);
        Looked {
            minute: self.minute,
            level: self.level,
            tenths: kinds::tenths_of(t),
            kind: kinds::kind_of(t),
            alarm1: u8::from(self.alarm1 != 0),
            alarm0: u8::from(self.alarm0 != 0),
            ..told
        }
    }
}

impl Looked {
    // A refusal is told by its number alone.
    pub fn refused(fault: Fault) -> Looked
        ensures { result ≡ refused_look (number_of fault) }
    {
        Looked {
            number: fault.number(),
            ..Looked::default()
        }
    }
}

pub fn free_rows() -> [Row; 30]
    ensures { result ≡ replicate 30 free_row }
{
    [Row::free(); 30]
}

// Whether a row's fault is set to this number.
pub(crate) fn sets_fault(number: u8) -> bool
    ensures { result ≡ sets_fault number }
{
    matches!(number, 1..=9 | 26)
}

// The place that a fault names: beside another than 7 none.
pub(crate) fn place_in(fault: Fault) -> u8
    ensures { result ≡ place_named fault }
{
    match fault {
        Fault::InNoChart(place) => place,
        _ => 0,
    }
}
