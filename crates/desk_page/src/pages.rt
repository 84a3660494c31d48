// The cards that a page is made of, read from files or from standard input, and what is said where one of them gives no page.
use crate::about;
use print::Stop;
use std::env::FillError;
use std::io::{Read, Write};
use std::rt::{Env, Files};
use std::{fmt, fs, io};
use summary::{Made, Summary};

// Why cards are not joined. Out of order is no summary that comes from a card.
#[derive(Clone, Copy)]
enum Unjoined {
    TooManyReplies,
    TooManyPairs,
    OutOfOrder,
}

// By number, since `Made` is C's answer and holds one.
impl From<u8> for Unjoined {
    fn from(number: u8) -> Unjoined {
        match number {
            24 => Unjoined::TooManyReplies,
            25 => Unjoined::TooManyPairs,
            _ => Unjoined::OutOfOrder,
        }
    }
}

impl fmt::Display for Unjoined {
    fn fmt<W: fmt::Write>(&self, f: &mut fmt::Formatter<W>) -> fmt::Result {
        f.write_str(match self {
            Unjoined::TooManyReplies => {
                "fault 24: with it a pair's good or faulty replies are above 1,000,000"
            }
            Unjoined::TooManyPairs => {
                "fault 25: with it there are more than 30 pairs of address and settings, or it or a card before it has records of more than its 30"
            }
            Unjoined::OutOfOrder => "fault 37: a summary is not in order",
        })
    }
}

// The page of a summary that was made; of a refusal none, and the card at which it was given is named.
fn page_of(err: &impl Print, made: Made, name: &[u8]) -> Result<Summary, Stop> {
    if made.number == 0 {
        return Ok(made.summary);
    }
    err.write_all(name)?;
    println!(err; ": {}", Unjoined::from(made.number))?;
    Err(Stop::Unjoined(made.number))
}

// The page of the card that is read. What its slots hold is printed at once.
fn card<R: Read>(
    rt: &impl Print,
    err: &impl Print,
    reader: &mut R,
    name: &[u8],
) -> Result<Summary, Stop> {
    let mut bytes = [0u8; 65537];
    let card = print::read_card(err, reader, name, &mut bytes)?;
    about::card(rt, name, card.tally)?;
    page_of(err, summary::sisal_summary_of(card.sheet), name)
}

// The system's words for an error. The number of the error, which the library adds behind them in brackets, is left out.
fn system_words(text: &str) -> &str {
    text.split_once(" (os error ")
        .map_or(text, |(words, _)| words)
}

// Says that a file cannot be opened, and why. The words are made in a buffer, since there is no heap to make them on.
fn fail(err: &impl Print, name: &[u8], why: io::Error) -> io::Result<()> {
    let mut text = [0u8; 128];
    let mut room: &mut [u8] = &mut text;
    write!(room, "{why}")?;
    let used = 128usize.saturating_sub(room.len());
    let words = str::from_utf8(&text[..used]).unwrap_or("");
    err.write_all(name)?;
    println!(err; ": {}", system_words(words))
}

// A file opened by a name in bytes. The library opens no name that is not UTF-8.
fn open<R: Files>(rt: &R, name: &[u8]) -> io::Result<R::File> {
    let Ok(path) = str::from_utf8(name) else {
        return Err(io::Error::from(io::ErrorKind::InvalidFilename));
    };
    fs::open(rt, path)
}

// The page of the card in a file.
fn file(rt: &(impl Files + Print), err: &impl Print, name: &[u8]) -> Result<Summary, Stop> {
    match open(rt, name) {
        Ok(mut opened) => card(rt, err, &mut opened, name),
        Err(why) => {
            fail(err, name, why)?;
            Err(Stop::NoCard)
        }
    }
}

// The page of the cards before, where there are any, and of the card in a file. The first card begins the page: joined to a blank one it would be refused
// for records that have no line.
fn with_file(
    rt: &(impl Files + Print),
    err: &impl Print,
    before: Option<Summary>,
    name: &[u8],
) -> Result<Summary, Stop> {
    let next = file(rt, err, name)?;
    match before {
        Some(page) => page_of(err, joins::sisal_summary_join(page, next), name),
        None => Ok(next),
    }
}

// The name that argument i is, where there is one.
fn argument<'a>(
    rt: &impl Env,
    err: &impl Print,
    i: usize,
    name: &'a mut [u8],
) -> Result<Option<&'a [u8]>, Stop> {
    match rt.arg(i, name) {
        Ok(size) => Ok(Some(&name[..size])),
        Err(FillError::NotPresent) => Ok(None),
        Err(FillError::TooLong) => {
            println!(err; "a card's name: File name too long")?;
            Err(Stop::NoCard)
        }
    }
}

// The cards of all arguments on one page, or none as soon as one of them gives none; with no argument the card on standard input. By number, since the library's
// iterator over arguments allocates.
pub(crate) fn read_all(
    rt: &(impl Env + Files + Input + Print),
    err: &impl Print,
) -> Result<Summary, Stop> {
    let mut name = [0u8; 4096];
    let mut page = None;
    for i in 1..usize::MAX {
        let Some(name) = argument(rt, err, i, &mut name)? else {
            break;
        };
        page = Some(with_file(rt, err, page, name)?);
    }
    match page {
        Some(page) => Ok(page),
        None => card(rt, err, &mut rt.reader(), b"standard input"),
    }
}
