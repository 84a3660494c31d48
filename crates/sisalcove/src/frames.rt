// Polls and replies, the bits of one transmitter's line.
ghost use Rattle.export.specs.Calls.{SisalForm, SisalReadPoll, SisalWritePoll, SisalReadReply, SisalWriteReply};

use export_told::{Done, PollTold, ReplyTold};

// Whether a reply is lent in the right form.
#[unsafe(no_mangle)]
pub extern "C" fn sisal_form(count: usize, reply: &[u8]) -> u8
    ensures { SisalForm count reply.now result }
{
    export::sisal_form(count, reply)
}

// Reads a poll.
#[unsafe(no_mangle)]
pub extern "C" fn sisal_read_poll(poll: &[u8]) -> PollTold
    ensures { SisalReadPoll poll.now result }
{
    export::sisal_read_poll(poll)
}

// Writes a poll.
#[unsafe(no_mangle)]
pub extern "C" fn sisal_write_poll(address: u16, raise: u8, reset: u8, out: &mut [u8]) -> Done
    ensures { SisalWritePoll address raise reset out.old result out.new }
{
    export::sisal_write_poll(address, raise, reset, out)
}

// Reads a reply to a poll of this address.
#[unsafe(no_mangle)]
pub extern "C" fn sisal_read_reply(
    settings: u8,
    address: u16,
    count: usize,
    reply: &[u8],
) -> ReplyTold
    ensures { SisalReadReply settings address count reply.now result }
{
    export::sisal_read_reply(settings, address, count, reply)
}

// The same answer, by the reader of two digits at a time.
#[unsafe(no_mangle)]
pub extern "C" fn sisal_read_reply_by_pairs(
    settings: u8,
    address: u16,
    count: usize,
    reply: &[u8],
) -> ReplyTold
    ensures { SisalReadReply settings address count reply.now result }
{
    export::sisal_read_reply_by_pairs(settings, address, count, reply)
}

// Writes a reply.
#[unsafe(no_mangle)]
pub extern "C" fn sisal_write_reply(
    settings: u8,
    address: u16,
    level: u16,
    kind: u8,
    tenths: i16,
    alarm1: u8,
    alarm0: u8,
    out: &mut [u8],
) -> Done
    ensures { SisalWriteReply settings address level kind tenths alarm1 alarm0 out.old result out.new }
{
    export::sisal_write_reply(settings, address, level, kind, tenths, alarm1, alarm0, out)
}
