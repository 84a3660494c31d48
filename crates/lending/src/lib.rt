// The board's calls over rows that the host lends. Every call takes every input, and asks 38 first: rows in use
// stand in strictly rising address order, and free ones behind them. The first 30 rows count,
// or all where they are fewer; rows past the thirtieth are never read or written, and no answer names a row's place. The calls are
// exported, so their names bear a prefix: C has a `remove` of its own.
#![tactic(auto)]

pub mod lent;

ghost use Rattle.board.specs.Calls.{Enrols, Hears, Removes, LooksUp, PollsRow};

use board::{Heard, Looked, Row, value};

// Enrols a transmitter, with its sensor profile and the mark of a 6500 in `gauge`, before the first greater address: 0; or 38 order,
// 10 settings, 11 asked address, 27 profile on an 1800, 18 twice, 19 no row.
pub fn sisal_board_enrol(rows: &mut [Row], settings: u8, address: u16, gauge: u8) -> u8
    ensures { Enrols rows.old settings address gauge result rows.new }
{
    let f = lent::find(rows, address);
    match value::enrol(f, settings, address, gauge) {
        Ok(c) => {
            lent::put(rows, c);
            0
        }
        Err(fault) => fault.number(),
    }
}

// Hears a reply: 0, reading, minute and fault 0 are set; 1 to 9, or 26 temperature outside the row's profile, the row's fault is set, 7 with
// its place, and counted, and its reading stays; in both cases the row was last heard at this minute; or 38 order, 11 asked address, 14 form,
// 17 unknown, 10 the row's own settings, and nothing changes.
pub fn sisal_board_hear<'r, 'b>(
    rows: &'r mut [Row],
    minute: u32,
    address: u16,
    count: usize,
    reply: &'b [u8],
) -> Heard
    ensures { Hears rows.old minute address count reply.now result rows.new }
{
    let f = lent::find(rows, address);
    match value::hear(f, minute, address, count, reply) {
        Ok(h) => {
            lent::put(rows, h.change);
            value::said(h.wrong)
        }
        Err(fault) => value::said(Some(fault)),
    }
}

// Removes a transmitter, and the rows behind its row move up: 0; or 38 order, 11 asked address, 17 unknown.
pub fn sisal_board_remove(rows: &mut [Row], address: u16) -> u8
    ensures { Removes rows.old address result rows.new }
{
    let f = lent::find(rows, address);
    match value::remove(f, address) {
        Ok(c) => {
            lent::put(rows, c);
            0
        }
        Err(fault) => fault.number(),
    }
}

// Looks at a transmitter's row: what stands in it; or 38 order, 11 asked address, 17 unknown.
pub fn sisal_board_look_up(rows: &[Row], address: u16) -> Looked
    ensures { LooksUp rows.now address result }
{
    let f = lent::find(rows, address);
    match value::look(f, address) {
        Ok(told) => told,
        Err(fault) => Looked::refused(fault),
    }
}

// Writes the poll of a transmitter's row into the first 2 bytes, with raise or with reset where they are not 0: 0; or 38 order, 11 asked address,
// 17 unknown, 28 raise or reset to a row without the mark, or both at once, 15 output short, and nothing changes.
pub fn sisal_board_poll<'r, 'o>(
    rows: &'r [Row],
    address: u16,
    raise: u8,
    reset: u8,
    out: &'o mut [u8],
) -> u8
    ensures { PollsRow rows.now address raise reset out.old result out.new }
{
    let f = lent::find(rows, address);
    match value::poll(f, address, raise, reset, out) {
        Ok(_) => 0,
        Err(fault) => fault.number(),
    }
}
