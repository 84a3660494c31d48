// What is drawn of a try: its delay, and then its poll, from where the last call ended.
ghost use Rattle.std.specs.Prelude.{◌≡◌, false, drop, replicate};
ghost use Rattle.polling.specs.Pace.{bad_pace};
ghost use Rattle.polling.specs.Meant.{poll_drawn, try_drawn};
ghost use Rattle.polling.specs.Inside.Puts.{Puts};
ghost use Rattle.polling.specs.Inside.Turns.{over_by, driven, told, DrawsTurn};

use crate::turns::Turn;
use crate::{Drew, Pace, ranges, turns};
use frame::Fault;
use lines::SoFar;

// What becomes of a turn that was drawn, and what the call tells of it.
#[derive(Clone, Copy)]
pub(crate) struct Driven {
    pub lines: SoFar,
    pub passed: u32,
    pub listening: u8,
    pub told: Drew,
}

fn drew(lines: SoFar, passed: u32, listening: u8, count: usize) -> Driven
    ensures { result ≡ driven lines passed listening (told count 0 0) }
{
    Driven {
        lines,
        passed,
        listening,
        told: Drew {
            count,
            over: 0,
            number: 0,
        },
    }
}

// Nothing is drawn, and the turn is as it was.
fn undrawn(t: Turn, over: u8, number: u8) -> Driven
    ensures { result ≡ driven t.lines t.passed t.listening (told 0 over number) }
{
    Driven {
        lines: t.lines,
        passed: t.passed,
        listening: t.listening,
        told: Drew {
            count: 0,
            over,
            number,
        },
    }
}

// Puts down so many idle samples, or as many as fit.
fn idle(out: &mut [u8], many: usize) -> usize
    ensures { Puts (replicate many 0) out.old result out.new }
{
    let end = many.min(out.len());
    out[..end].fill(0);
    end
}

// The poll from a sample on. An address that the frame writes no poll of has none.
fn poll(p: Pace, address: u16, from: usize, out: &mut [u8]) -> usize
    requires { bad_pace p ≡ false }
    ensures { Puts (drop from (poll_drawn p address)) out.old result out.new }
{
    let mut bytes = [0; 2];
    match frame::write_poll(address, false, false, &mut bytes) {
        Ok(_) => {
            let done = drawing::sisal_draw(p.low as usize, p.still as usize, 16, &bytes, from, out);
            done.count
        }
        Err(_) => 0,
    }
}

// A try from a sample on.
fn draw_try(p: Pace, address: u16, from: usize, out: &mut [u8]) -> usize
    requires { bad_pace p ≡ false }
    ensures { Puts (drop from (try_drawn p address)) out.old result out.new }
{
    let delay = p.delay as usize;
    let end = idle(out, delay.saturating_sub(from));
    let more = poll(p, address, from.saturating_sub(delay), &mut out[end..]);
    end + more
}

// Draws on. Where the poll's end is reached, it is time to listen.
fn draw_on(t: Turn, p: Pace, out: &mut [u8]) -> Driven
    requires p_value { bad_pace p ≡ false }
    requires t_value { over_by t ≡ false }
    requires listening_value { t.listening ≡ 0 }
    ensures { DrawsTurn t p out.old result out.new }
{
    let address = t.entry.address;
    let passed = t.passed as usize;
    let many = draw_try(p, address, passed, out);
    let rest = lines::state::at_rest();
    if turns::size_of(p, address) as usize <= passed + many {
        return drew(rest, 0, 1, many);
    }
    drew(rest, (passed + many) as u32, 0, many)
}

// Draws a turn, whatever the pace and the state are.
pub(crate) fn draw(t: Turn, p: Pace, out: &mut [u8]) -> Driven
    ensures { DrawsTurn t p out.old result out.new }
{
    if ranges::bad_pace(p) {
        return undrawn(t, 0, Fault::BadTiming.number());
    }
    if t.is_over() {
        return undrawn(t, 1, 0);
    }
    if t.listening != 0 {
        let heard = t.listens();
        return undrawn(heard, 0, 0);
    }
    draw_on(t, p, out)
}
