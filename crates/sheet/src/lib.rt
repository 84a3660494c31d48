// The month sheet: records of polls kept in slots of 32 bytes, on a sheet that the caller lends. Its public calls are `save` and
// `look`.
#![tactic(auto)]

mod bytes;
pub mod into;
mod next;
mod record;
mod slot;
mod stores;
pub mod tell;
pub mod view;
mod words;

ghost use Rattle.std.specs.Prelude.{◌≡◌};
ghost use Rattle.sheet.specs.Look.{entry_with};
ghost use Rattle.sheet.specs.Slots.{length_allowed};
ghost use Rattle.sheet.specs.Save.{Saves};

use frame::Fault;
use into::put_into;
pub use next::next_slot;
pub use record::check;
pub use stores::before_reply;
pub use view::look;

// What a record says beside its reply bytes.
#[derive(Clone, Copy, PartialEq, Eq)]
pub struct Head {
    pub settings: u8,
    pub minute: u32,
    pub address: u16,
    pub count: usize,
}

// What a slot reads as, or the refusal.
#[derive(Clone, Copy, PartialEq, Eq)]
pub enum Found {
    Blank,
    Spoiled,
    Foreign,
    Record(Head),
    Refused(Fault),
}

// The answer of a look: a record's reply bytes stand beside it, from the first on, and 0 after them.
#[derive(Clone, Copy, PartialEq, Eq)]
pub struct Looked {
    pub found: Found,
    pub reply: [u8; 8],
}

// A sheet's length is a multiple of 32, and at most 65,536.
pub fn size_allowed(len: usize) -> bool
    ensures { result ≡ length_allowed len }
{
    len % 32 == 0 && len <= 65536
}

// Saves a record into the slot after the last used one, making as many stores as are allowed. Refuses by 12, 10, 11, 14 and 13, in that order, and
// then changes nothing.
pub fn save(sheet: &mut [u8], head: Head, reply: &[u8], allowance: usize) -> Result<usize, Fault>
    ensures { Saves sheet.old (entry_with head reply.now) allowance result sheet.new }
{
    if !size_allowed(sheet.len()) {
        return Err(Fault::NoSheet);
    }
    check(head, reply)?;
    let next = next_slot(sheet);
    put_into(sheet, next, head, reply, allowance)
}
