// Areas as a fitter would see them: a site, the plan that is proposed for it, and what the checker says of that plan and of plans drawn by hand.
// `stdout` holds what each call has to answer.
#![tactic(auto)]

mod plans;
mod sites;

use std::io;

fn main(rt: HostRuntime) -> io::Result<()> {
    println!(rt; "proposed plans")?;
    sites::small(&rt)?;
    sites::alike(&rt)?;
    println!(rt; "a fitter's plans for 5000/0 5000/0 1/0")?;
    sites::drawn(&rt)
}
