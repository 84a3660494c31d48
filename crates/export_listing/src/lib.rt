// The calls of the listing for a host in C or Rust, over lent bytes, told as `export` tells its own. They stand in a crate of their own, so
// that a wrong program of either costs a check of that one alone.
#![tactic(auto)]

ghost use Rattle.export_listing.specs.Calls.{SisalHeadLine, SisalSlotLine, SisalLastLine, SisalListing};

use export_told::Done;

// Writes the first line of a sheet's listing. Refuses 12, 15.
pub fn sisal_head_line(sheet: &[u8], out: &mut [u8]) -> Done
    ensures { SisalHeadLine sheet.now out.old result out.new }
{
    Done::from(listing::head_line(sheet, out))
}

// Writes the line of one slot, no byte where it is blank. Refuses 12, 15.
pub fn sisal_slot_line(sheet: &[u8], slot: usize, out: &mut [u8]) -> Done
    ensures { SisalSlotLine sheet.now slot out.old result out.new }
{
    Done::from(listing::slot_line(sheet, slot, out))
}

// Writes the last line of a sheet's listing. Refuses 12, 15.
pub fn sisal_last_line(sheet: &[u8], out: &mut [u8]) -> Done
    ensures { SisalLastLine sheet.now out.old result out.new }
{
    Done::from(listing::last_line(sheet, out))
}

// Writes the whole listing of a sheet; of a bad size it is "fault 12". Refuses 15: 40 bytes for each slot and 80 more are enough.
pub fn sisal_listing(sheet: &[u8], out: &mut [u8]) -> Done
    ensures { SisalListing sheet.now out.old result out.new }
{
    Done::from(listing::whole_listing(sheet, out))
}
