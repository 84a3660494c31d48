// A try that is settled: the transmitter is polled again, or its reply stands and the next one's turn comes.
ghost use Rattle.std.specs.Prelude.{◌≡◌, false, ◌+◌, ◌<◌, ◌^◌};
ghost use Rattle.polling.specs.Pace.{bad_pace};
ghost use Rattle.polling.specs.Listening.{listen};
ghost use Rattle.lines.specs.SoFar.{rest_state};
ghost use Rattle.polling.specs.Inside.Ears.{Ready, number_in, replied_by};
ghost use Rattle.polling.specs.Inside.Turns.{over_by, turn_as, settled, outcome, standing, SettlesTurn, HearsTurn};

use crate::listening::{Ear, Told};
use crate::turns::Turn;
use crate::{Pace, Settled, listening, ranges};
use frame::Fault;
use lines::SoFar;
use round::Polled;

// What becomes of a turn that was heard, and what the call tells of it.
#[derive(Clone, Copy)]
pub(crate) struct Outcome {
    pub turn: Turn,
    pub told: Settled,
}

// Nothing was settled.
fn untold(turn: Turn, taken: usize, over: u8, number: u8) -> Outcome
    ensures { result ≡ outcome turn (settled taken 0 0 over number) }
{
    Outcome {
        turn,
        told: Settled {
            taken,
            reply: 0,
            answered: 0,
            over,
            number,
        },
    }
}

// The try goes on.
fn going_on(t: Turn, left: SoFar, taken: usize) -> Outcome
    requires { t.passed + taken < 2 ^ 32 }
    ensures { result ≡ outcome (turn_as t left (t.passed + taken) t.tried 1) (settled taken 0 0 0 0) }
{
    let passed = (t.passed as usize + taken) as u32;
    untold(t.so_far(left, passed, t.tried, 1), taken, 0, 0)
}

// The same transmitter is polled again.
fn asked_again(t: Turn, told: Told, taken: usize) -> Outcome
    requires { t.tried < 255 }
    ensures { result ≡ outcome (turn_as t rest_state 0 (t.tried + 1) 0) (settled taken t.at 0 0 (number_in told)) }
{
    Outcome {
        turn: t.so_far(lines::state::at_rest(), 0, t.tried + 1, 0),
        told: Settled {
            taken,
            reply: t.at,
            answered: 0,
            over: 0,
            number: told.number(),
        },
    }
}

// The reply of a transmitter: its address, its settings and `unused` stay.
fn replied(entry: Polled, minute: u32, told: Told) -> Polled
    ensures { result ≡ replied_by minute told entry }
{
    let (count, reply) = told.bits();
    let count = u32::from(count);
    Polled {
        minute,
        count,
        bytes: count.div_ceil(8),
        reply,
        ..entry
    }
}

// The reply stands, and the next transmitter's turn comes.
fn answered(t: Turn, minute: u32, told: Told, taken: usize) -> Outcome
    requires { over_by t ≡ false }
    ensures { result ≡ standing minute told taken t }
{
    let turn = Turn {
        entry: replied(t.entry, minute, told),
        lines: lines::state::at_rest(),
        passed: 0,
        at: t.at + 1,
        tried: 0,
        listening: 0,
        ..t
    };
    Outcome {
        turn,
        told: Settled {
            taken,
            reply: t.at,
            answered: 1,
            over: u8::from(turn.is_over()),
            number: told.number(),
        },
    }
}

// Listens, from what the turn means, and settles the try where a sample does.
fn settle(t: Turn, p: Pace, minute: u32, samples: &[u8]) -> Outcome
    requires p_value { bad_pace p ≡ false }
    requires t_value { over_by t ≡ false }
    requires ready { Ready t.lines }
    ensures { SettlesTurn p minute t (listen p t.lines t.passed samples.now) result }
{
    match listening::listen(p, t.lines, t.passed as usize, samples) {
        Ear::Open { left, taken } => going_on(t, left, taken),
        Ear::Closed { told, taken } => {
            if told.is_message() || p.tries <= u32::from(t.tried) + 1 {
                return answered(t, minute, told, taken);
            }
            asked_again(t, told, taken)
        }
    }
}

// Hears a turn, whatever the pace and the state are.
pub(crate) fn hear(t: Turn, p: Pace, minute: u32, samples: &[u8]) -> Outcome
    ensures { HearsTurn t p minute samples.now result }
{
    if ranges::bad_pace(p) {
        return untold(t, 0, 0, Fault::BadTiming.number());
    }
    if t.is_over() {
        return untold(t, 0, 1, 0);
    }
    let w = t.meant(p);
    if w.listening == 0 {
        return untold(w, 0, 0, 0);
    }
    settle(w, p, minute, samples)
}
