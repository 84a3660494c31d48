// What the program says of an answer.
use lines::{LinesTold, SoFar};
use print::Hex;
use std::fmt;

// A message, a report, or nothing.
#[derive(Clone, Copy)]
pub(crate) struct Told<'a>(pub(crate) &'a LinesTold);

impl fmt::Display for Told<'_> {
    fn fmt<W: fmt::Write>(&self, f: &mut fmt::Formatter<W>) -> fmt::Result {
        let told = self.0;
        if told.number != 0 {
            return write!(f, "number {}", told.number);
        }
        if told.count == 0 {
            return f.write_str("nothing");
        }
        let bits = if told.count == 1 { "bit" } else { "bits" };
        let bytes = usize::from(told.count).div_ceil(8).min(8);
        write!(f, "{} {bits}:{}", told.count, Hex(&told.message[..bytes]))
    }
}

#[derive(Clone, Copy)]
pub(crate) struct State(pub(crate) SoFar);

impl fmt::Display for State {
    fn fmt<W: fmt::Write>(&self, f: &mut fmt::Formatter<W>) -> fmt::Result {
        let SoFar {
            bits,
            run,
            count,
            line,
            fault,
        } = self.0;
        write!(f, "{bits:016x} {run} {count} {line} {fault}")
    }
}
