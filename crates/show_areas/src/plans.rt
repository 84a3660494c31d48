// What the program shows: plans, and what the checker says of them.
use print::{FaultNumber, Numbers};
use std::{fmt, io};

// What the checker says of a plan, by its number.
#[derive(Clone, Copy)]
pub(crate) struct Verdict(pub(crate) u8);

impl fmt::Display for Verdict {
    fn fmt<W: fmt::Write>(&self, f: &mut fmt::Formatter<W>) -> fmt::Result {
        match self.0 {
            0 => f.write_str("accepted"),
            number => write!(f, "{}", FaultNumber(number)),
        }
    }
}

// A proposed plan, and what the checker says of it.
pub(crate) fn plan(rt: &impl Print, site: &[u32]) -> io::Result<()> {
    let proposed = areas::sisal_plan_areas(site);
    if proposed.number != 0 {
        return println!(rt; " {}", FaultNumber(proposed.number));
    }
    let sizes = &proposed.sizes[..8.min(usize::from(proposed.areas))];
    let none = if sizes.is_empty() { " no areas" } else { "" };
    let verdict = Verdict(areas::sisal_check_areas(site, sizes));
    println!(rt; "{none}{}, checked: {verdict}", Numbers(sizes))
}
