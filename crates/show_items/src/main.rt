// Item records as a person at the gauge's line would see them: a request and its answer, each kind both ways, and what is refused. The vectors of
// document 002 and the edges of request 13 are among them; `stdout` holds what each call has to answer.
#![tactic(auto)]

mod show;
mod vectors;

use std::io;

fn main(rt: HostRuntime) -> io::Result<()> {
    println!(rt; "asked and answered")?;
    vectors::kinds(&rt)?;
    println!(rt; "the ends of each range")?;
    vectors::ends(&rt)?;
    println!(rt; "refused when written")?;
    vectors::unwritten(&rt)?;
    println!(rt; "refused when read")?;
    vectors::unframed(&rt)?;
    vectors::no_item(&rt)
}
