// The program "desk_page": the desk summary as a page for people. With file names as arguments it reads those cards and joins their summaries into one
// page; with none it reads one card from standard input. First it says of each card what its slots hold, then it prints the table. Its last line tells
// what came of it: "status 0" after a page, "status" and the number that refuses the join where the cards cannot be joined,
// "status 1" where a card gives no page. Standard error has said why then, and what stands before that line is no page.
#![tactic(auto)]

mod about;
mod levels;
mod pages;
mod table;

use print::Stop;
use std::io;
use std::rt::{Env, Files};

fn show(rt: &(impl Env + Files + Input + Print), err: &impl Print) -> Result<(), Stop> {
    let page = pages::read_all(rt, err)?;
    table::print(rt, page)?;
    Ok(())
}

fn main(rt: HostRuntime) -> io::Result<()> {
    let ended = show(&rt, &rt.stderr());
    print::end(&rt, &rt.stderr(), ended)
}
