// Whose turn it is, and what it means. A turn is all of the state but the replies of the others.
ghost use Rattle.std.specs.Prelude.{◌≡◌, false, length};
ghost use Rattle.lines.specs.SoFar.{meant};
ghost use Rattle.polling.specs.Pace.{bad_pace};
ghost use Rattle.polling.specs.Meant.{try_drawn};
ghost use Rattle.polling.specs.Inside.Ears.{Ready};
ghost use Rattle.polling.specs.Inside.Turns.{place_of, turn_in, over_by, turn_as, MeansTurn};

use crate::{Pace, Polling};
use lines::SoFar;
use round::Polled;

// The fields are the state's own, as C lends it: a refused call leaves each as it was, bit for bit.
#[derive(Clone, Copy)]
pub(crate) struct Turn {
    // The reply whose turn it is.
    pub entry: Polled,
    // How many replies the round has; the rest as in the state.
    pub count: usize,
    pub lines: SoFar,
    pub passed: u32,
    pub at: u16,
    pub tried: u8,
    pub listening: u8,
}

// The place of the entry that is taken out: where the turn is at no entry, as in a round that is over, the first.
pub(crate) fn place(at: u16) -> usize
    ensures { result ≡ place_of at }
{
    if at < 30 { usize::from(at) } else { 0 }
}

// How many samples a try draws: the delay, and then 16 bits. An address above 999 has no poll.
pub(crate) fn size_of(p: Pace, address: u16) -> u32
    requires { bad_pace p ≡ false }
    ensures { result ≡ length (try_drawn p address) }
{
    if 999 < address {
        return p.delay;
    }
    p.delay + 16 * (p.low + p.still)
}

impl Turn {
    // The turn that is taken out of a state.
    pub(crate) fn of(polling: &Polling) -> Turn
        ensures { result ≡ turn_in polling.now }
    {
        Turn {
            entry: polling.round.replies[place(polling.at)],
            count: polling.round.count,
            lines: polling.lines,
            passed: polling.passed,
            at: polling.at,
            tried: polling.tried,
            listening: polling.listening,
        }
    }

    pub(crate) fn is_over(self) -> bool
        ensures { result ≡ over_by self }
    {
        30 < self.count || self.count <= usize::from(self.at)
    }

    // The same turn, so far on.
    pub(crate) fn so_far(self, lines: SoFar, passed: u32, tried: u8, listening: u8) -> Turn
        ensures { result ≡ turn_as self lines passed tried listening }
    {
        Turn {
            lines,
            passed,
            tried,
            listening,
            ..self
        }
    }

    // What a turn means while it listens: its lines mean what they mean by themselves.
    pub(crate) fn listens(self) -> Turn
        ensures { (result ≡ turn_as self (meant self.lines) self.passed self.tried 1) × Ready result.lines }
    {
        self.so_far(lines::state::meant(self.lines), self.passed, self.tried, 1)
    }

    // What a turn means by its pace, while the round is not over.
    pub(crate) fn meant(self, p: Pace) -> Turn
        requires p_value { bad_pace p ≡ false }
        requires self_value { over_by self ≡ false }
        ensures { MeansTurn p self result × Ready result.lines }
    {
        if self.listening != 0 {
            return self.listens();
        }
        let rest = lines::state::at_rest();
        if size_of(p, self.entry.address) <= self.passed {
            return self.so_far(rest, 0, self.tried, 1);
        }
        self.so_far(rest, self.passed, self.tried, 0)
    }
}
