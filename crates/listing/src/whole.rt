// What goes over all slots of a sheet, one after another.
ghost use Rattle.std.specs.Prelude.{◌≡◌, true, ◌++◌, ◌+◌, ◌*◌, length};
ghost use Rattle.sheet.specs.Slots.{size_allowed, slots, list_of};
ghost use Rattle.putting.specs.Adds.{Adds, HasRoom};
ghost use Rattle.listing.specs.Lines.{head_line, lines_up_to, last_line};

use crate::lines::{put_count, put_slot, records_in};
use putting::Text;
use sheet::look;

// How many records a sheet holds.
pub(crate) fn count_records(sheet: &[u8], many: usize) -> usize
    requires sheet_value { size_allowed sheet.now ≡ true }
    requires many_value { many ≡ slots sheet.now }
    ensures { result ≡ length (list_of sheet.now) }
{
    let mut records = 0;
    for k in 0..many {
        records += records_in(look(sheet, k).found);
    }
    records
}

// The lines of all slots. Answers how many records they show: the records are counted on the way, and no slot is read twice.
fn put_lines(text: &mut Text, sheet: &[u8], many: usize) -> usize
    requires sheet_value { size_allowed sheet.now ≡ true }
    requires many_value { many ≡ slots sheet.now }
    requires room { HasRoom text.old (40 * many) }
    ensures puts { Adds (lines_up_to sheet.now many) (40 * many) text.old text.new }
    ensures records_value { result ≡ length (list_of sheet.now) }
{
    let mut records = 0;
    for k in 0..many {
        records += put_slot(text, sheet, k);
    }
    records
}

// The first line, the lines of all slots, and the last line.
pub(crate) fn put_listing(text: &mut Text, sheet: &[u8], many: usize)
    requires sheet_value { size_allowed sheet.now ≡ true }
    requires many_value { many ≡ slots sheet.now }
    requires room { HasRoom text.old (40 * (many + 2)) }
    ensures { Adds (head_line sheet.now ++ lines_up_to sheet.now many ++ last_line sheet.now) (40 * (many + 2)) text.old text.new }
{
    put_count(text, b"sheet ", many as u16);
    let records = put_lines(text, sheet, many);
    put_count(text, b"records ", records as u16);
}
