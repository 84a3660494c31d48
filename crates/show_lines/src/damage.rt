// Each kind of damage on a line, and what is said of it.
use crate::draw::{BEGINNING, picture};
use crate::words::Told;
use std::io;

// At most three calls, each from where the last one stopped.
fn hear(rt: &impl Print, samples: &[u8]) -> io::Result<()> {
    let mut so_far = BEGINNING;
    let mut left = samples;
    for _call in 0..3 {
        if left.is_empty() {
            break;
        }
        let told = lines::sisal_hear_lines(so_far, 2, 3, 4, left);
        println!(rt; "    {}, after {} samples", Told(&told), told.taken)?;
        so_far = told.so_far;
        left = left.get(told.taken..).unwrap_or(&[]);
    }
    Ok(())
}

fn show(rt: &impl Print, pictures: &[(&str, &str)]) -> io::Result<()> {
    for (name, letters) in pictures {
        println!(rt; "{name:<24}{letters}")?;
        hear(rt, &picture(letters)[..letters.len().min(356)])?;
    }
    Ok(())
}

pub(crate) fn all(rt: &impl Print) -> io::Result<()> {
    show(
        rt,
        &[
            ("a mark and a space", "MM...SSS...."),
            ("idle for long", "................................"),
            ("two messages", "..MMM....SS..MM...."),
            ("no gap yet", "MM...SS..."),
            ("a run not ended", "MM...SS"),
        ],
    )?;
    show(
        rt,
        &[
            ("a pulse too short", "M...."),
            ("a pulse too long", "MM..SSSS...."),
            ("a line changed", "MMSS...."),
            ("both lines low", "MM..B..SS...."),
            ("both low and no bit", "B...."),
            ("a byte above 3", "MM..?...."),
            ("a byte above 3, later", "M..MM.?.BB...."),
            ("idle cut by noise", "M...M...M...."),
            ("spoiled, then a message", "M....SS..SS...."),
            ("22, then 21", "?....B...."),
        ],
    )
}
