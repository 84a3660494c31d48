// What the type of a mode carries.
ghost use Rattle.std.specs.Prelude.{◌≤◌};

// How many digits a mode has, the bit that they begin at (those from bit 16 up to it are fill), the fill bits after them (up to bit 37), its
// largest level, the charts of its digits in a word (four bits a digit, the top digit lowest), and the starting state: whether a digit above
// the first is odd. None stands there, and the first is always read straight.
#[derive(Clone, Copy)]
pub(crate) struct Constants {
    pub(crate) digits: u64,
    pub(crate) first: u64,
    pub(crate) after: u64,
    pub(crate) largest: u64,
    pub(crate) charts: u64,
    pub(crate) start: bool,
    ghost few_digits: { digits ≤ 5 },
    ghost from_16: { 16 ≤ first },
    ghost by_17: { first ≤ 17 },
    ghost few_after: { after ≤ 6 },
}
