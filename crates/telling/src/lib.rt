// A save told as its stores: what `save` would do, and nothing is changed. For a host that makes the stores itself, on a card that cannot be lent. What is
// told stands with the sheet's definitions.
#![tactic(auto)]

ghost use Rattle.std.specs.Prelude.{◌≡◌, ◌≤◌, ◌<◌, length};
ghost use Rattle.frame.specs.Faults.{number_of, verdict};
ghost use Rattle.sheet.specs.Slots.{next};
ghost use Rattle.sheet.specs.Save.{save_fault};
ghost use Rattle.sheet.specs.Stores.{stores};
ghost use Rattle.sheet.specs.Look.{entry_with};
ghost use Rattle.sheet.specs.StoresTold.{zeros_behind, telling, refusing, TellsStores};
ghost use Rattle.sheet.specs.Inside.Rows.{places_row, bytes_row};

use frame::Fault;
use sheet::tell::SaveStores;
use sheet::{Head, before_reply, check, next_slot, size_allowed};

// A refused save has no stores.
fn refused(fault: Fault) -> SaveStores
    ensures { result ≡ refusing (number_of fault) }
{
    SaveStores {
        slot: 0,
        places: [0; 19],
        bytes: [0; 19],
        count: 0,
        number: fault.number(),
    }
}

// The places of a record's stores within its slot, where so many bytes follow the length: from byte 2 on, ascending; then byte 1, then byte 0.
fn places_for(size: usize) -> [u8; 19]
    requires { size ≤ 17 }
    ensures { result ≡ zeros_behind (places_row size) }
{
    let mut places = [0; 19];
    for i in 0..size {
        places[i] = (2 + i) as u8;
    }
    places[size] = 1;
    places[size + 1] = 0;
    places
}

// Their bytes: what follows the length; then the length's low byte, then the high, which no length needs.
fn bytes_for(head: Head, reply: &[u8]) -> [u8; 19]
    requires count_bound { head.count ≤ 64 }
    requires reply_len_bound { length reply.now ≤ 8 }
    ensures { result ≡ zeros_behind (bytes_row (entry_with head reply.now)) }
{
    let size = 9 + reply.len();
    let mut bytes = [0; 19];
    bytes[..9].copy_from_slice(&before_reply(head));
    bytes[9..size].copy_from_slice(reply);
    bytes[size] = size as u8;
    bytes[size + 1] = 0;
    bytes
}

// The stores of a record into a slot.
fn told(slot: usize, head: Head, reply: &[u8]) -> SaveStores
    requires slot_bound { slot < 65536 }
    requires count_bound { head.count ≤ 64 }
    requires reply_len_bound { length reply.now ≤ 8 }
    ensures { result ≡ telling slot (stores 0 (entry_with head reply.now)) }
{
    let size = 9 + reply.len();
    SaveStores {
        slot: slot as u32,
        places: places_for(size),
        bytes: bytes_for(head, reply),
        count: (size + 2) as u8,
        number: 0,
    }
}

// What `save` would do, or what refuses it.
fn try_save(sheet: &[u8], head: Head, reply: &[u8]) -> Result<SaveStores, Fault>
    ensures { result ≡ verdict (save_fault sheet.now (entry_with head reply.now)) (telling (next sheet.now) (stores 0 (entry_with head reply.now))) }
{
    if !size_allowed(sheet.len()) {
        return Err(Fault::NoSheet);
    }
    check(head, reply)?;
    let slot = next_slot(sheet);
    if sheet.len() / 32 <= slot {
        return Err(Fault::SheetFull);
    }
    Ok(told(slot, head, reply))
}

// Tells the stores that `save` would make, all of them, in order. Refuses as `save` does: by 12, 10, 11, 14 and 13, in that order.
pub fn save_stores(sheet: &[u8], head: Head, reply: &[u8]) -> SaveStores
    ensures { TellsStores sheet.now (entry_with head reply.now) result }
{
    match try_save(sheet, head, reply) {
        Ok(told) => told,
        Err(fault) => refused(fault),
    }
}
