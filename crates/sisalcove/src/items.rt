// Item records of the 854 gauge.
ghost use Rattle.enraf.specs.Item.{item_of};
ghost use Rattle.enraf.specs.Reading.{ReadsItem};
ghost use Rattle.enraf.specs.Writing.{WritesItem};

use enraf::{Done, ItemTold};

// Reads a record.
#[unsafe(no_mangle)]
pub extern "C" fn sisal_read_item(bytes: &[u8]) -> ItemTold
    ensures { ReadsItem bytes.now result }
{
    enraf::sisal_read_item(bytes)
}

// Writes a record.
#[unsafe(no_mangle)]
pub extern "C" fn sisal_write_item(
    ciu: u16,
    gauge: u16,
    first: u8,
    second: u8,
    kind: u8,
    error: u16,
    characters: &[u8],
    out: &mut [u8],
) -> Done
    ensures { WritesItem (item_of ciu gauge first second kind error characters.now) out.old result out.new }
{
    enraf::sisal_write_item(ciu, gauge, first, second, kind, error, characters, out)
}
