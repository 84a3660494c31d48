// A try listened to: the samples are handed to the hearing of the lines, cut at the limit that comes next: `wait`, and behind it, where the lines are not at
// rest, `longest`.
ghost use Rattle.std.specs.Prelude.{◌≡◌, false, ◌<◌, ◌^◌};
ghost use Rattle.polling.specs.Pace.{bad_pace};
ghost use Rattle.polling.specs.Listening.{listen};
ghost use Rattle.polling.specs.Inside.Ears.{Ready, HasRoom, limit_of, next_limit, end_of, cut_to, told_by, told_in, message_in, number_in, count_in, bytes_in, ear_of};

use crate::Pace;
use frame::Fault;
use lines::{LinesTold, SoFar};

// By what a try is settled: silence, a message with its bits, or the number of a spoiled one, or of a line given up. It stays a number, as the lines tell
// it and as C is told: no call asks which it is.
#[derive(Clone, Copy)]
pub(crate) enum Told {
    Silence,
    Message { count: u8, reply: [u8; 8] },
    Spoiled(u8),
}

// How a try stands after so many samples: it goes on, and the lines are left so; or it is settled.
#[derive(Clone, Copy)]
pub(crate) enum Ear {
    Open { left: SoFar, taken: usize },
    Closed { told: Told, taken: usize },
}

impl Told {
    // The lines have told of a message, or of a spoiled one.
    fn of(told: LinesTold) -> Told
        ensures { result ≡ told_in told }
    {
        if told.number != 0 {
            return Told::Spoiled(told.number);
        }
        let reply = told.message;
        Told::Message {
            count: told.count,
            reply,
        }
    }

    // The limit is reached: silence where the lines are at rest; else given up, by 22 where a byte above 3 came.
    fn at_limit(s: SoFar) -> Told
        ensures { result ≡ told_by (end_of s) }
    {
        if lines::state::is_rest(s) {
            return Told::Silence;
        }
        let fault = if s.fault == 22 {
            Fault::SpoiledByByte
        } else {
            Fault::Spoiled
        };
        Told::Spoiled(fault.number())
    }

    pub(crate) fn is_message(self) -> bool
        ensures { result ≡ message_in self }
    {
        matches!(self, Told::Message { .. })
    }

    // The number that is answered: 0 of a message and of silence.
    pub(crate) fn number(self) -> u8
        ensures { result ≡ number_in self }
    {
        match self {
            Told::Spoiled(number) => number,
            _ => 0,
        }
    }

    // The bits of a message, and how many: none of any other.
    pub(crate) fn bits(self) -> (u8, [u8; 8])
        ensures { result ≡ (count_in self, bytes_in self) }
    {
        match self {
            Told::Message { count, reply } => (count, reply),
            _ => (0, [0; 8]),
        }
    }
}

// The limit by which it is settled: no low sample has come while the lines are at rest.
fn limit_of(p: Pace, s: SoFar) -> usize
    ensures { result ≡ limit_of p s }
{
    if lines::state::is_rest(s) {
        p.wait as usize
    } else {
        p.longest as usize
    }
}

// The limit that comes next: before `wait` it is that one, whatever the lines are; they are asked only behind it, so that a batch that ends before it
// costs no more than to be heard.
fn next_limit(p: Pace, s: SoFar, passed: usize) -> usize
    ensures { result ≡ next_limit p s passed }
{
    let wait = p.wait as usize;
    if passed < wait { wait } else { limit_of(p, s) }
}

// As many of the samples as come before the limit or reach it: at least one.
fn cut(many: usize, limit: usize, passed: usize) -> usize
    ensures { result ≡ cut_to many limit passed }
{
    limit.saturating_sub(passed).max(1).min(many)
}

// Listens up to the sample that settles the try, or to the last. A turn takes as many samples as the lines do, so no `for` counts them.
pub(crate) fn listen(p: Pace, begun: SoFar, before: usize, samples: &[u8]) -> Ear
    requires p_value { bad_pace p ≡ false }
    requires ready { Ready begun }
    requires before_bound { before < 2 ^ 32 }
    ensures value { result ≡ ear_of (listen p begun before samples.now) }
    ensures room { HasRoom before result }
{
    let mut s = begun;
    let mut i = 0;
    while i < samples.len() {
        let limit = next_limit(p, s, before + i);
        let end = i + cut(samples.len() - i, limit, before + i);
        let told = lines::hear(
            p.least as usize,
            p.most as usize,
            p.gap as usize,
            s,
            &samples[i..end],
        );
        i += told.taken;
        if told.count != 0 || told.number != 0 {
            return Ear::Closed {
                told: Told::of(told),
                taken: i,
            };
        }
        let left = told.so_far;
        if next_limit(p, left, before + i) <= before + i {
            return Ear::Closed {
                told: Told::at_limit(left),
                taken: i,
            };
        }
        s = left;
    }
    Ear::Open { left: s, taken: i }
}
