// What is said on standard error of an input that is no card to go by.
use crate::Unread;
use crate::counting::Tally;
use std::io;

fn say(err: &impl Print, name: &[u8], words: &[u8]) -> io::Result<()> {
    err.write_all(name)?;
    err.write_all(b": ")?;
    err.write_all(words)
}

// Words with a number in them.
fn say_number(
    err: &impl Print,
    name: &[u8],
    words: &[u8],
    n: usize,
    after: &[u8],
) -> io::Result<()> {
    say(err, name, words)?;
    err.print(n)?;
    err.write_all(after)
}

// A sheet may have this size, and it is not the size of nothing.
fn size_right(err: &impl Print, name: &[u8], size: usize) -> io::Result<bool> {
    if 65536 < size {
        say(
            err,
            name,
            b"fault 12: more than 65,536 bytes, and no sheet is larger\n",
        )?;
        return Ok(false);
    }
    if size % 32 != 0 {
        say_number(
            err,
            name,
            b"fault 12: ",
            size,
            b" bytes are no whole number of slots of 32 bytes\n",
        )?;
        return Ok(false);
    }
    if size == 0 {
        say(err, name, b"no recorder's card: it has no bytes\n")?;
        return Ok(false);
    }
    Ok(true)
}

// An input was read to its end, a sheet may have its size, and a recorder may have written it. No recorder wrote a sheet that has foreign slots and no record: bytes by chance begin
// a slot with FF here and there, so a spoiled slot beside them says nothing. Where it answers false, it has said why.
pub fn is_card(
    err: &impl Print,
    name: &[u8],
    read: Result<usize, Unread>,
    tally: Tally,
) -> io::Result<bool> {
    let Ok(size) = read else {
        say(err, name, b"cannot be read\n")?;
        return Ok(false);
    };
    if !size_right(err, name, size)? {
        return Ok(false);
    }
    if tally.records != 0 || tally.foreign == 0 {
        return Ok(true);
    }
    say_number(
        err,
        name,
        b"no recorder's card: no slot holds a record, and ",
        tally.foreign,
        b" of them hold something else\n",
    )?;
    Ok(false)
}
