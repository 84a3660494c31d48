// A message drawn on the two lines, sample by sample: the other half of hearing them. The call keeps no state: it is told from which sample on it draws,
// so a host that keeps that one number draws in whatever batches its port takes. Its one public call is `sisal_draw`.
#![tactic(auto)]

mod pulses;

ghost use Rattle.std.specs.Prelude.{◌≡◌};
ghost use Rattle.drawing.specs.Pulses.{bad_pulse};
ghost use Rattle.drawing.specs.Calls.{done, Draws};

// What drawing answers: the samples drawn; beside a refusal 0.
#[repr(C)]
#[derive(Clone, Copy)]
pub struct Done {
    pub count: usize,
    pub number: u8,
}

pub fn bad_pulse(low: usize, still: usize) -> bool
    ensures { result ≡ bad_pulse low still }
{
    !(1..=1000).contains(&low) || !(1..=10000).contains(&still)
}

fn refusal(number: u8) -> Done
    ensures { result ≡ done 0 number }
{
    Done { count: 0, number }
}

// Draws the bits of a message from a sample on, as many samples as there are or fit. Refuses 20, 14.
pub fn sisal_draw(
    low: usize,
    still: usize,
    count: usize,
    message: &[u8],
    from: usize,
    out: &mut [u8],
) -> Done
    ensures { Draws low still count message.now from out.old result out.new }
{
    if bad_pulse(low, still) {
        return refusal(20);
    }
    if !frame::formed(count, message) {
        return refusal(14);
    }
    Done {
        count: pulses::draw(low, still, count, message, from, out),
        number: 0,
    }
}
