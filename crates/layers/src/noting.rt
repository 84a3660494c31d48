// The slots that a pair's picture is made of: one pass over the sheet notes them, and each layer goes over them alone.
ghost use Rattle.std.specs.Prelude.{◌≡◌, true, [], ◌≤◌, ◌<◌, length, take, MatchOption};
ghost use Rattle.frame.specs.Line.{bytes_for};
ghost use Rattle.sheet.specs.Look.{entry_with};
ghost use Rattle.sheet.specs.Record.{fields_of};
ghost use Rattle.sheet.specs.Slots.{size_allowed, slots, slot_at};
ghost use Rattle.summary.specs.Line.{pair_by};
ghost use Rattle.summary.specs.Worked.{pair_in, reply_in};
ghost use Rattle.layers.specs.Inside.Noted.{own_in, IsNoted, IsOne};

use frame::{Fault, Reading};
use sheet::{Found, Head, look};

// Some slots of a sheet, the first `count` here. A row with its count, since memory is fixed and no heap is used.
#[derive(Clone, Copy)]
pub struct Notes {
    pub slots: [u16; 2048],
    pub count: usize,
}

// A sheet of an allowed size, a pair, and the slots that were noted of it.
#[derive(Clone, Copy)]
pub struct Noted<'a> {
    pub sheet: &'a [u8],
    pub own: &'a [u16],
    pub pair: u32,
    ghost sheet_value: { size_allowed sheet.now ≡ true },
    ghost noted: { IsNoted sheet.now pair own.now },
}

// Address and settings as one number, from where they stand in a slot that holds a record. Of any other slot they are some bytes.
fn pair_at(sheet: &[u8], slot: usize) -> u32
    requires slot_bound { slot < 2048 }
    requires slot_bound_2 { slot < slots sheet.now }
    ensures { result ≡ pair_in (fields_of (slot_at sheet.now slot)) }
{
    let at = 32 * slot;
    let high = u32::from(sheet[at + 8]);
    let low = u32::from(sheet[at + 9]);
    let settings = u32::from(sheet[at + 3]);
    (high * 256 + low) * 0x10000 + settings
}

// The slots that can hold a record of a pair. A slot that cannot is not counted, and the next is written over it.
pub fn note_slots(sheet: &[u8], many: usize, pair: u32) -> Notes
    requires sheet_value { size_allowed sheet.now ≡ true }
    requires many_value { many ≡ slots sheet.now }
    ensures count_in_bounds { result.count ≤ length result.slots }
    ensures noted { IsNoted sheet.now pair (take result.count result.slots) }
{
    let mut slots = [0u16; 2048];
    let mut count: usize = 0;
    for k in 0..many {
        slots[count] = k as u16;
        if pair_at(sheet, k) == pair {
            count += 1;
        }
    }
    Notes { slots, count }
}

// A record's minute, and what its reply reads as.
#[derive(Clone, Copy)]
pub(crate) struct Seen {
    pub(crate) minute: u32,
    pub(crate) reply: Result<Reading, Fault>,
}

// Address and settings as one number. The summary's `pair_of` takes a line, which a head is not.
fn pair_of(head: Head) -> u32
    ensures { result ≡ pair_by head.address head.settings }
{
    u32::from(head.address) * 0x10000 + u32::from(head.settings)
}

// What a record's reply reads as. Its bytes stand first in the eight.
fn read(head: Head, bytes: [u8; 8]) -> Result<Reading, Fault>
    requires { head.count ≤ 64 }
    ensures { result ≡ reply_in (entry_with head (take (bytes_for head.count) bytes)) }
{
    let size = (head.count + 7) / 8;
    frame::read_reply(head.settings, head.address, head.count, &bytes[..size])
}

// The record of a pair in a slot, where it holds one.
pub(crate) fn record_of(sheet: &[u8], slot: usize, pair: u32) -> Option<Seen>
    requires sheet_value { size_allowed sheet.now ≡ true }
    requires slot_bound { slot < slots sheet.now }
    ensures { MatchOption result (own_in sheet.now pair slot ≡ []) (λ r. IsOne (own_in sheet.now pair slot) r.minute r.reply) }
{
    let looked = look(sheet, slot);
    let Found::Record(head) = looked.found else {
        return None;
    };
    if pair_of(head) != pair {
        return None;
    }
    Some(Seen {
        minute: head.minute,
        reply: read(head, looked.reply),
    })
}
