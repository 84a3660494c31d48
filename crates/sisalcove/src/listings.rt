// A sheet as text, line by line or at once.
ghost use Rattle.export_listing.specs.Calls.{SisalHeadLine, SisalSlotLine, SisalLastLine, SisalListing};

use export_told::Done;

// Writes the first line of a sheet's listing.
#[unsafe(no_mangle)]
pub extern "C" fn sisal_head_line(sheet: &[u8], out: &mut [u8]) -> Done
    ensures { SisalHeadLine sheet.now out.old result out.new }
{
    export_listing::sisal_head_line(sheet, out)
}

// Writes the line of one slot, no byte where it is blank.
#[unsafe(no_mangle)]
pub extern "C" fn sisal_slot_line(sheet: &[u8], slot: usize, out: &mut [u8]) -> Done
    ensures { SisalSlotLine sheet.now slot out.old result out.new }
{
    export_listing::sisal_slot_line(sheet, slot, out)
}

// Writes the last line of a sheet's listing.
#[unsafe(no_mangle)]
pub extern "C" fn sisal_last_line(sheet: &[u8], out: &mut [u8]) -> Done
    ensures { SisalLastLine sheet.now out.old result out.new }
{
    export_listing::sisal_last_line(sheet, out)
}

// Writes the whole listing of a sheet.
#[unsafe(no_mangle)]
pub extern "C" fn sisal_listing(sheet: &[u8], out: &mut [u8]) -> Done
    ensures { SisalListing sheet.now out.old result out.new }
{
    export_listing::sisal_listing(sheet, out)
}
