// A round begun from the board by value: 38 is asked of its rows, and each row in use has its reply put down.
ghost use Rattle.std.specs.Prelude.{◌≡◌, ◌++◌, map, ◌-◌, ◌≤◌, take, replicate};
ghost use Rattle.polling.specs.Beginning.{no_reply, unanswered, reply_for};
ghost use Rattle.polling.specs.Inside.Boards.{begun_by, HoldsBoard, BeginsOn};

use crate::{Begun, Polling};
use board::Row;
use frame::Fault;
use round::{Polled, Round};

// A reply before it is polled.
fn unanswered(minute: u32, address: u16, settings: u8) -> Polled
    ensures { result ≡ unanswered minute address settings 0 }
{
    Polled {
        minute,
        count: 0,
        bytes: 0,
        address,
        settings,
        unused: 0,
        reply: [0; 8],
    }
}

fn no_replies() -> [Polled; 30]
    ensures { result ≡ replicate 30 no_reply }
{
    [unanswered(0, 0, 0); 30]
}

fn begun_with(replies: [Polled; 30], count: usize, number: u8) -> Begun
    ensures { result ≡ begun_by replies count number }
{
    let polling = Polling {
        round: Round { replies, count },
        lines: lines::state::at_rest(),
        passed: 0,
        at: 0,
        tried: 0,
        listening: 0,
    };
    Begun { polling, number }
}

// The replies of the first rows, and no reply behind them.
fn replies_of(held: [Row; 30], count: usize, minute: u32) -> [Polled; 30]
    requires { count ≤ 30 }
    ensures { result ≡ map (reply_for minute) (take count held) ++ replicate (30 - count) no_reply }
{
    let mut replies = no_replies();
    for (i, row) in held[..count].iter().enumerate() {
        replies[i] = unanswered(minute, row.address, row.settings);
    }
    replies
}

// The board's own search tells whether its rows are kept in order and, where they are, the place of the first free one: those before it are in use.
pub(crate) fn begin(held: [Row; 30], len: usize, minute: u32) -> Begun
    requires { HoldsBoard held len }
    ensures { BeginsOn held len minute result }
{
    let Some(found) = board::value::find(held, len, 0) else {
        return begun_with(no_replies(), 0, Fault::OutOfOrder.number());
    };
    let replies = replies_of(held, found.free, minute);
    begun_with(replies, found.free, 0)
}
