// Two noisy lines: each kind of damage as a picture of its samples, with what is said of it; a poll drawn and heard again; and then the checks of the
// lines' rules, each with what was told, the samples taken and the state after.
#![tactic(auto)]

mod checks;
mod damage;
mod draw;
mod spoken;
mod words;

use std::io;

fn main(rt: HostRuntime) -> io::Result<()> {
    let rt = &rt;
    println!(rt;
        "What is heard, least 2, most 3, gap 4. A dot is idle, M mark low, S space low, B both low, ? a byte above 3."
    )?;
    damage::all(rt)?;
    println!(rt; "\nA poll drawn, low 2, still 3, and heard again.")?;
    spoken::all(rt)?;
    println!(rt;
        "\nThe checks: least, most, gap; what was told; samples taken; bits, run, count, line and fault of the state after."
    )?;
    checks::all(rt)
}
