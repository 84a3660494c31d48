// What the slots of a sheet hold, counted in one pass.
ghost use Rattle.std.specs.Prelude.{◌≡◌, ◌+◌, ◌<◌, ◌^◌};
ghost use Rattle.cards.specs.Tally.{no_tally, with_slot, tally_of};

use sheet::{Found, look};

// How many slots a sheet has, how many of them read as what, and the lowest and the highest minute of its records; where there is no record, the
// lowest is 0xffffffff and the highest 0.
#[derive(Clone, Copy, PartialEq, Eq)]
pub struct Tally {
    pub slots: usize,
    pub records: usize,
    pub spoiled: usize,
    pub foreign: usize,
    pub first: u32,
    pub last: u32,
}

impl Tally {
    fn nothing(slots: usize) -> Tally
        ensures { result ≡ no_tally slots }
    {
        Tally {
            slots,
            records: 0,
            spoiled: 0,
            foreign: 0,
            first: u32::MAX,
            last: 0,
        }
    }

    // With one slot more, by what it reads as.
    fn with_slot(self, found: Found) -> Tally
        requires records_bound { self.records + 1 < 2 ^ 64 }
        requires spoiled_bound { self.spoiled + 1 < 2 ^ 64 }
        requires foreign_bound { self.foreign + 1 < 2 ^ 64 }
        ensures { result ≡ with_slot found self }
    {
        match found {
            Found::Record(head) => Tally {
                records: self.records + 1,
                first: self.first.min(head.minute),
                last: self.last.max(head.minute),
                ..self
            },
            Found::Spoiled => Tally {
                spoiled: self.spoiled + 1,
                ..self
            },
            Found::Foreign => Tally {
                foreign: self.foreign + 1,
                ..self
            },
            Found::Blank | Found::Refused(_) => self,
        }
    }
}

// What the slots of a sheet hold. A sheet of a size that is not allowed has none that is counted.
pub fn count(sheet: &[u8]) -> Tally
    ensures { result ≡ tally_of sheet.now }
{
    let slots = sheet.len() / 32;
    let mut t = Tally::nothing(slots);
    for k in 0..slots {
        t = t.with_slot(look(sheet, k).found);
    }
    t
}
