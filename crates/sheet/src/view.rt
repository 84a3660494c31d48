// The view of a lent sheet: its bytes and how many slots they make. A call on the view hands the 32 bytes of one slot to the slot reader.
// A view is no copy, and nothing else is kept of the sheet.
ghost use Rattle.std.specs.Prelude.{◌≡◌};
ghost use Rattle.sheet.specs.Look.{Looks};
ghost use Rattle.sheet.specs.View.{Opens, Counts, Sees, slots_for};

use crate::slot::{bare, read_slot};
use crate::{Found, Looked, size_allowed};
use frame::Fault;

#[derive(Clone, Copy)]
pub struct Sheet<'a> {
    pub bytes: &'a [u8],
    pub slots: usize,
}

// The slots that so many bytes make: none where a sheet may not have that size.
fn slots_for(len: usize) -> usize
    ensures { result ≡ slots_for len }
{
    if size_allowed(len) { len / 32 } else { 0 }
}

// How many slots a sheet has. Refuses by 12.
pub fn count_slots(bytes: &[u8]) -> Result<usize, Fault>
    ensures { Counts bytes.now result }
{
    if size_allowed(bytes.len()) {
        Ok(bytes.len() / 32)
    } else {
        Err(Fault::NoSheet)
    }
}

// The view of a sheet. A sheet of a size that is not allowed has no slot in it.
pub fn open<'a>(bytes: &'a [u8]) -> Sheet<'a>
    ensures { Opens bytes.entry result }
{
    let slots = slots_for(bytes.len());
    Sheet { bytes, slots }
}

// What a slot of the view reads as. Refuses by 12 a slot that the view does not count, or whose 32 bytes are not there: so a view whose count of slots is
// wrong reads nothing outside its bytes.
pub fn slot_in<'a>(sheet: Sheet<'a>, slot: usize) -> Looked
    ensures { Sees sheet.entry.bytes.now sheet.entry.slots slot result }
{
    if slot < sheet.slots && slot < sheet.bytes.len() / 32 {
        let at = 32 * slot;
        read_slot(&sheet.bytes[at..at + 32])
    } else {
        bare(Found::Refused(Fault::NoSheet))
    }
}

// What a slot of a sheet reads as, seen through its view: for callers that have the sheet's bytes. Refuses by 12.
pub fn look(sheet: &[u8], slot: usize) -> Looked
    ensures { Looks sheet.now slot result }
{
    slot_in(open(sheet), slot)
}
