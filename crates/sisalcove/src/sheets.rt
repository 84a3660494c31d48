// A record saved on the month sheet, and slots read back.
ghost use Rattle.export.specs.Calls.{SisalSave, SisalSaveStores, SisalLook, SisalSlots};

use export_told::{Done, SlotTold};
use sheet::tell::SaveStores;

// Saves a reply into the slot after the last used one.
#[unsafe(no_mangle)]
pub extern "C" fn sisal_save(
    sheet: &mut [u8],
    settings: u8,
    minute: u32,
    address: u16,
    count: usize,
    reply: &[u8],
    allowance: usize,
) -> Done
    ensures { SisalSave sheet.old settings minute address count reply.now allowance result sheet.new }
{
    export::sisal_save(sheet, settings, minute, address, count, reply, allowance)
}

// Tells the stores that `sisal_save` would make, and changes nothing.
#[unsafe(no_mangle)]
pub extern "C" fn sisal_save_stores(
    sheet: &[u8],
    settings: u8,
    minute: u32,
    address: u16,
    count: usize,
    reply: &[u8],
) -> SaveStores
    ensures { SisalSaveStores sheet.now settings minute address count reply.now result }
{
    export::sisal_save_stores(sheet, settings, minute, address, count, reply)
}

// Looks at a slot.
#[unsafe(no_mangle)]
pub extern "C" fn sisal_look(sheet: &[u8], slot: usize) -> SlotTold
    ensures { SisalLook sheet.now slot result }
{
    export::sisal_look(sheet, slot)
}

// How many slots a sheet has.
#[unsafe(no_mangle)]
pub extern "C" fn sisal_slots(sheet: &[u8]) -> Done
    ensures { SisalSlots sheet.now result }
{
    export::sisal_slots(sheet)
}
