// The recorder runs its round: it begins from the board, says what is to be driven on the lines, is told what was sensed after it, and has the round of
// replies in the end. The state is lent, and most of it is replies that a call neither reads nor writes: each call takes out the one turn, works on that by
// value, where the checker covers all, and puts it back. The calls are exported, so their names bear a prefix.
#![tactic(auto)]

mod beginning;
mod drawing_out;
mod listening;
mod ranges;
mod settling;
mod turns;

ghost use Rattle.polling.specs.Drawing.{drew_with};
ghost use Rattle.polling.specs.Settling.{settled_with};
ghost use Rattle.polling.specs.Calls.{BeginsPolling, DrawsPolling, HearsPolling};

use crate::turns::Turn;
use board::Row;
use lines::SoFar;
use round::Round;

// A round on its way: 752 bytes with no hole, integers alone, and every pattern of them means something. All zeros is a round that is over.
#[repr(C)]
#[derive(Clone, Copy)]
pub struct Polling {
    // The replies; those below `at` are answered.
    pub round: Round,
    // What was heard so far after the poll.
    pub lines: SoFar,
    // The samples of this try that are drawn; while it listens, those heard since the poll.
    pub passed: u32,
    // Whose turn it is.
    pub at: u16,
    // The polls of this transmitter that gave no message before this one.
    pub tried: u8,
    // 0 while it draws, any other number while it listens.
    pub listening: u8,
}

// The timing numbers of a round, in samples, all wide, so that a wrong value arrives.
#[repr(C)]
#[derive(Clone, Copy)]
pub struct Pace {
    pub low: u32,
    pub still: u32,
    // Idle samples before each poll.
    pub delay: u32,
    pub least: u32,
    pub most: u32,
    pub gap: u32,
    // An answer's first low sample comes within so many samples after the poll.
    pub wait: u32,
    // An answer is closed within so many.
    pub longest: u32,
    // Polls of one transmitter at most.
    pub tries: u32,
}

#[repr(C)]
#[derive(Clone, Copy)]
pub struct Begun {
    pub polling: Polling,
    pub number: u8,
}

// What drawing answers: the samples drawn, and 1 where the round is over.
#[repr(C)]
#[derive(Clone, Copy)]
pub struct Drew {
    pub count: usize,
    pub over: u8,
    pub number: u8,
}

// What hearing answers: the samples taken. Where they settled a try: which reply it was, whether it now stands, and by what number; and 1 where the round is over.
#[repr(C)]
#[derive(Clone, Copy)]
pub struct Settled {
    pub taken: usize,
    pub reply: u16,
    pub answered: u8,
    pub over: u8,
    pub number: u8,
}

// Begins a round of the rows in use. Refuses 38.
pub fn sisal_polling_begin(rows: &[Row], minute: u32) -> Begun
    ensures { BeginsPolling rows.now minute result }
{
    let held = lending::lent::load(rows);
    beginning::begin(held, rows.len(), minute)
}

// Draws on, up to the end of the poll: then it is time to listen. Refuses 20.
pub fn sisal_polling_draw(polling: &mut Polling, pace: Pace, out: &mut [u8]) -> Drew
    ensures { DrawsPolling polling.old pace out.old (drew_with polling.new result) out.new }
{
    let driven = drawing_out::draw(Turn::of(polling), pace, out);
    polling.lines = driven.lines;
    polling.passed = driven.passed;
    polling.listening = driven.listening;
    driven.told
}

// Hears the samples sensed since the poll, up to the one that settles the try. Refuses 20; 21 and 22 tell of a try that gave no message.
pub fn sisal_polling_hear(polling: &mut Polling, pace: Pace, minute: u32, samples: &[u8]) -> Settled
    ensures { HearsPolling polling.old pace minute samples.now (settled_with polling.new result) }
{
    let place = turns::place(polling.at);
    let outcome = settling::hear(Turn::of(polling), pace, minute, samples);
    polling.round.replies[place] = outcome.turn.entry;
    polling.lines = outcome.turn.lines;
    polling.passed = outcome.turn.passed;
    polling.at = outcome.turn.at;
    polling.tried = outcome.turn.tried;
    polling.listening = outcome.turn.listening;
    outcome.told
}
