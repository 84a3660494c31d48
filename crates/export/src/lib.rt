// The recorder's calls for a host in C or Rust: each call of the crates below over integers and lent bytes alone. Every call takes
// every input. An answer is the refusal's number, 0 for none, or a struct of integers with that number in it. The calls over the
// board's rows stand in `lending`, those of the listing in `export_listing`; the archive, `sisalcove`, exports all.
#![tactic(auto)]

pub mod version;

ghost use Rattle.export.specs.Calls.{SisalForm, SisalReadPoll, SisalWritePoll, SisalReadReply, SisalWriteReply, SisalSave, SisalSaveStores, SisalLook, SisalSlots};

use export_told::{Done, PollTold, ReplyTold, SlotTold};
use frame::Reading;
use sheet::Head;
use sheet::tell::SaveStores;

// Whether a reply is lent in the right form: 0; or 14.
pub fn sisal_form(count: usize, reply: &[u8]) -> u8
    ensures { SisalForm count reply.now result }
{
    if frame::formed(count, reply) { 0 } else { 14 }
}

// Reads a poll. Refuses 16.
pub fn sisal_read_poll(poll: &[u8]) -> PollTold
    ensures { SisalReadPoll poll.now result }
{
    PollTold::from(frame::read_poll(poll))
}

// Writes a poll into the first 2 bytes; raise and reset are set by any number but 0. Refuses 11, 15.
pub fn sisal_write_poll(address: u16, raise: u8, reset: u8, out: &mut [u8]) -> Done
    ensures { SisalWritePoll address raise reset out.old result out.new }
{
    Done::from(frame::write_poll(address, raise != 0, reset != 0, out))
}

// Reads a reply to a poll of this address. Refuses 10, 11, 14, then 1 to 9.
pub fn sisal_read_reply(settings: u8, address: u16, count: usize, reply: &[u8]) -> ReplyTold
    ensures { SisalReadReply settings address count reply.now result }
{
    ReplyTold::from(frame::read_reply(settings, address, count, reply))
}

// The same answer by the second reader, which reads a level in the decimal or a metric mode two digits at a time, from a table. Refuses 10,
// 11, 14, then 1 to 9.
pub fn sisal_read_reply_by_pairs(
    settings: u8,
    address: u16,
    count: usize,
    reply: &[u8],
) -> ReplyTold
    ensures { SisalReadReply settings address count reply.now result }
{
    ReplyTold::from(frame::read_reply_by_pairs(settings, address, count, reply))
}

// Writes a reply: into the first 5 bytes where its temperature is absent, else into the first 7. The temperature's kind is 1 degrees,
// 2 above, 3 below; any other is absent, and only degrees have tenths. An alarm is set by any number but 0. Refuses 10, 11, 15.
pub fn sisal_write_reply(
    settings: u8,
    address: u16,
    level: u16,
    kind: u8,
    tenths: i16,
    alarm1: u8,
    alarm0: u8,
    out: &mut [u8],
) -> Done
    ensures { SisalWriteReply settings address level kind tenths alarm1 alarm0 out.old result out.new }
{
    let temperature = frame::kinds::temperature_by(kind, tenths);
    let reading = Reading {
        level,
        temperature,
        alarm1: alarm1 != 0,
        alarm0: alarm0 != 0,
    };
    Done::from(frame::write_reply(settings, address, reading, out))
}

// Saves a reply into the slot after the last used one, with at most so many stores. Refuses 12, 10, 11, 14, 13.
pub fn sisal_save(
    sheet: &mut [u8],
    settings: u8,
    minute: u32,
    address: u16,
    count: usize,
    reply: &[u8],
    allowance: usize,
) -> Done
    ensures { SisalSave sheet.old settings minute address count reply.now allowance result sheet.new }
{
    let head = Head {
        settings,
        minute,
        address,
        count,
    };
    Done::from(sheet::save(sheet, head, reply, allowance))
}

// Tells the stores that `sisal_save` would make, all of them, in order, and changes nothing. Refuses 12, 10, 11, 14, 13.
pub fn sisal_save_stores(
    sheet: &[u8],
    settings: u8,
    minute: u32,
    address: u16,
    count: usize,
    reply: &[u8],
) -> SaveStores
    ensures { SisalSaveStores sheet.now settings minute address count reply.now result }
{
    let head = Head {
        settings,
        minute,
        address,
        count,
    };
    telling::save_stores(sheet, head, reply)
}

// Looks at a slot. Refuses 12.
pub fn sisal_look(sheet: &[u8], slot: usize) -> SlotTold
    ensures { SisalLook sheet.now slot result }
{
    export_told::slot(sheet::look(sheet, slot))
}

// How many slots a sheet has. Refuses 12.
pub fn sisal_slots(sheet: &[u8]) -> Done
    ensures { SisalSlots sheet.now result }
{
    Done::from(sheet::view::count_slots(sheet))
}
