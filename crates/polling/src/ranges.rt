// The ranges of a pace.
ghost use Rattle.std.specs.Prelude.{◌≡◌};
ghost use Rattle.polling.specs.Pace.{bad_pace};

use crate::Pace;

pub(crate) fn bad_pace(p: Pace) -> bool
    ensures { result ≡ bad_pace p }
{
    drawing::bad_pulse(p.low as usize, p.still as usize)
        || 1_000_000 < p.delay
        || lines::bad_timing(p.least as usize, p.most as usize, p.gap as usize)
        || !(1..=1_000_000).contains(&p.wait)
        || !(p.wait..=10_000_000).contains(&p.longest)
        || !(1..=9).contains(&p.tries)
}
