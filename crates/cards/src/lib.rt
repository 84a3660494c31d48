// What the programs of the desk read a card with: its bytes from a file or from standard input, a count of what its slots hold, and words on standard error
// where it is no card to go by.
#![tactic(auto)]

mod counting;
mod reading;
mod words;

pub use counting::{Tally, count};
pub use reading::{Unread, read_card};
pub use words::is_card;
