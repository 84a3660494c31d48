// The checks of the lines' rules, as request 01 works them out.
use crate::draw::{BEGINNING, picture};
use crate::words::{State, Told};
use lines::SoFar;
use std::{fmt, io};

// The timing numbers of a call: the least and the most samples of a pulse, and the samples of the gap.
#[derive(Clone, Copy)]
struct Timing {
    least: usize,
    most: usize,
    gap: usize,
}

// The timing of most checks, and the one that lets a pulse be short.
const USUAL: Timing = Timing {
    least: 2,
    most: 3,
    gap: 4,
};

const SHORT: Timing = Timing { least: 1, ..USUAL };

impl fmt::Display for Timing {
    fn fmt<W: fmt::Write>(&self, f: &mut fmt::Formatter<W>) -> fmt::Result {
        write!(f, "{} {} {}", self.least, self.most, self.gap)
    }
}

// One call, and what it told. Answers the state after.
fn check(rt: &impl Print, s: SoFar, timing: Timing, samples: &[u8]) -> io::Result<SoFar> {
    let Timing { least, most, gap } = timing;
    let told = lines::sisal_hear_lines(s, least, most, gap, samples);
    print!(rt;
        "{timing}: {}; {} of {}",
        Told(&told),
        told.taken,
        samples.len()
    )?;
    println!(rt; "; {}", State(told.so_far))?;
    Ok(told.so_far)
}

// The samples of a picture.
fn drawn(rt: &impl Print, s: SoFar, timing: Timing, letters: &str) -> io::Result<SoFar> {
    check(rt, s, timing, &picture(letters)[..letters.len().min(356)])
}

fn fresh(rt: &impl Print, timing: Timing, pictures: &[&str]) -> io::Result<()> {
    for letters in pictures {
        drawn(rt, BEGINNING, timing, letters)?;
    }
    Ok(())
}

// A message in one batch and in three, idle alone, and wrong lengths.
fn batches(rt: &impl Print) -> io::Result<()> {
    fresh(
        rt,
        USUAL,
        &[
            "MM...SSS.............",
            "..................................................",
        ],
    )?;
    let s = drawn(rt, BEGINNING, USUAL, "MM...S")?;
    let s = drawn(rt, s, USUAL, "SS...")?;
    drawn(rt, s, USUAL, ".")?;
    fresh(rt, USUAL, &["M....", "MMMM...."])?;
    check(rt, BEGINNING, USUAL, &[2u8; 70000])?;
    Ok(())
}

fn spoiled(rt: &impl Print) -> io::Result<()> {
    fresh(
        rt,
        SHORT,
        &["MS....", "B....", "MMMMMMMMM.?....", "M...B...M...."],
    )?;
    fresh(rt, Timing { gap: 1, ..SHORT }, &["S.M."])
}

// So many marks of one sample, idle of one between them and of two after the last.
fn marks(rt: &impl Print, times: u8) -> io::Result<()> {
    let times = usize::from(times);
    let mut samples = [0u8; 356];
    for mark in samples.iter_mut().step_by(2).take(times) {
        *mark = 1;
    }
    let timing = Timing {
        least: 1,
        most: 1,
        gap: 2,
    };
    check(rt, BEGINNING, timing, &samples[..(2 * times + 1).min(356)])?;
    Ok(())
}

// A state that no call leaves: with bad timing it comes back as it was, else it is a spoiled message.
fn strange(rt: &impl Print) -> io::Result<()> {
    let s = SoFar {
        bits: 5,
        run: 6,
        count: 7,
        line: 8,
        fault: 9,
    };
    drawn(
        rt,
        s,
        Timing {
            least: 3,
            most: 2,
            ..USUAL
        },
        "MM.........",
    )?;
    drawn(rt, s, SHORT, "....")?;
    Ok(())
}

// The bench's reply, with pulses and idle of 4 samples, and a gap of 40.
fn reply(rt: &impl Print) -> io::Result<()> {
    let mut samples = [0u8; 356];
    drawing::sisal_draw(4, 4, 40, &[0x80, 0x0e, 0x50, 0, 0], 0, &mut samples);
    let timing = Timing {
        least: 3,
        most: 5,
        gap: 40,
    };
    check(rt, BEGINNING, timing, &samples)?;
    Ok(())
}

pub(crate) fn all(rt: &impl Print) -> io::Result<()> {
    batches(rt)?;
    spoiled(rt)?;
    marks(rt, 64)?;
    marks(rt, 65)?;
    strange(rt)?;
    reply(rt)
}
