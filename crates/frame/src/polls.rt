// The bits of a poll as a word of 16 bits.
ghost use Rattle.std.specs.Prelude.{◌≡◌, ◌*◌, ◌^◌, ◌≤◌};
ghost use Rattle.frame.specs.Poll.{poll_line};

use crate::line;

// Bit 1 of a poll, its start, bit 3, raise, and bit 4, reset.
const START: u16 = 0x8000;

const RAISE: u16 = 0x2000;

const RESET: u16 = 0x1000;

// The address follows them in three digits.
pub(crate) fn word(address: u16, raise: bool, reset: bool) -> u16
    requires { address ≤ 999 }
    ensures { result * 2 ^ 48 ≡ poll_line address raise reset }
{
    START
        + RAISE * u16::from(raise)
        + RESET * u16::from(reset)
        + line::three_of(u64::from(address)) as u16
}
