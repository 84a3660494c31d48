// A sheet as text, line by line, into an output that the caller lends.
#![tactic(auto)]

mod lines;
pub mod text;
mod whole;

ghost use Rattle.std.specs.Prelude.{true, length};
ghost use Rattle.listing.specs.Calls.{Writes, WritesHead, WritesSlot, WritesLast, WritesListing};

use frame::Fault;
use lines::{put_count, put_slot};
use putting::Text;
use sheet::view::count_slots;
use whole::{count_records, put_listing};

// A line is made in an array of its own first, so that an output too short for it stays as it was.
fn hand_over(line: &[u8], out: &mut [u8]) -> Result<usize, Fault>
    ensures { Writes true (length line.now) line.now out.old result out.new }
{
    if out.len() < line.len() {
        return Err(Fault::ShortOutput);
    }
    let mut text = Text { out, at: 0 };
    text.word(line);
    Ok(text.at)
}

// The first line of a sheet's listing. Refuses by 12 and 15.
pub fn head_line(sheet: &[u8], out: &mut [u8]) -> Result<usize, Fault>
    ensures { WritesHead sheet.now out.old result out.new }
{
    let slots = count_slots(sheet)?;
    let mut line = [0u8; 40];
    let mut text = Text {
        out: &mut line,
        at: 0,
    };
    put_count(&mut text, b"sheet ", slots as u16);
    let end = text.at;
    hand_over(&line[..end], out)
}

// The line of one slot, no byte where it is blank. Refuses by 12 and 15.
pub fn slot_line(sheet: &[u8], slot: usize, out: &mut [u8]) -> Result<usize, Fault>
    ensures { WritesSlot sheet.now slot out.old result out.new }
{
    let slots = count_slots(sheet)?;
    if slots <= slot {
        return Err(Fault::NoSheet);
    }
    let mut line = [0u8; 40];
    let mut text = Text {
        out: &mut line,
        at: 0,
    };
    put_slot(&mut text, sheet, slot);
    let end = text.at;
    hand_over(&line[..end], out)
}

// The last line of a sheet's listing. Refuses by 12 and 15.
pub fn last_line(sheet: &[u8], out: &mut [u8]) -> Result<usize, Fault>
    ensures { WritesLast sheet.now out.old result out.new }
{
    let slots = count_slots(sheet)?;
    let records = count_records(sheet, slots);
    let mut line = [0u8; 40];
    let mut text = Text {
        out: &mut line,
        at: 0,
    };
    put_count(&mut text, b"records ", records as u16);
    let end = text.at;
    hand_over(&line[..end], out)
}

// The whole listing of a sheet, as the program `list` prints it; of a bad size it is "fault 12". Refuses by 15: an output of 40 bytes for each slot
// and 80 more is long enough for every sheet.
pub fn whole_listing(sheet: &[u8], out: &mut [u8]) -> Result<usize, Fault>
    ensures { WritesListing sheet.now out.old result out.new }
{
    let Ok(slots) = count_slots(sheet) else {
        return hand_over(b"fault 12\n", out);
    };
    if out.len() < 40 * (slots + 2) {
        return Err(Fault::ShortOutput);
    }
    let mut text = Text { out, at: 0 };
    put_listing(&mut text, sheet, slots);
    Ok(text.at)
}
