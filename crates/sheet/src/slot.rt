// The slot reader: what the 32 bytes of a slot read as.
ghost use Rattle.std.specs.Prelude.{◌≡◌};
ghost use Rattle.sheet.specs.Look.{part_of, bare};

use crate::record::{head_in, is_record, reply_in};
use crate::words::blank_slot;
use crate::{Found, Looked};
use frame::Fault;

// An answer without reply bytes.
pub(crate) fn bare(found: Found) -> Looked
    ensures { result ≡ bare found }
{
    Looked {
        found,
        reply: [0; 8],
    }
}

// What a slot reads as. A part of a sheet that has not 32 bytes is no slot, and is refused.
pub(crate) fn read_slot(part: &[u8]) -> Looked
    ensures { result ≡ part_of part.now }
{
    let Ok(part) = <&[u8; 32]>::try_from(part) else {
        return bare(Found::Refused(Fault::NoSheet));
    };
    if part[0] == 0xff {
        let blank = blank_slot(part);
        return bare(if blank { Found::Blank } else { Found::Spoiled });
    }
    if !is_record(part) {
        return bare(Found::Foreign);
    }
    let head = head_in(part);
    let reply = reply_in(part, head.count);
    Looked {
        found: Found::Record(head),
        reply,
    }
}
