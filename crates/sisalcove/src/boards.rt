// The board of last good readings, over rows that the host lends.
ghost use Rattle.board.specs.Calls.{Enrols, Hears, Removes, LooksUp, PollsRow};

use board::{Heard, Looked, Row};

// Enrols a transmitter.
#[unsafe(no_mangle)]
pub extern "C" fn sisal_board_enrol(rows: &mut [Row], settings: u8, address: u16, gauge: u8) -> u8
    ensures { Enrols rows.old settings address gauge result rows.new }
{
    lending::sisal_board_enrol(rows, settings, address, gauge)
}

// Hears a reply.
#[unsafe(no_mangle)]
pub extern "C" fn sisal_board_hear<'r, 'b>(
    rows: &'r mut [Row],
    minute: u32,
    address: u16,
    count: usize,
    reply: &'b [u8],
) -> Heard
    ensures { Hears rows.old minute address count reply.now result rows.new }
{
    lending::sisal_board_hear(rows, minute, address, count, reply)
}

// Removes a transmitter.
#[unsafe(no_mangle)]
pub extern "C" fn sisal_board_remove(rows: &mut [Row], address: u16) -> u8
    ensures { Removes rows.old address result rows.new }
{
    lending::sisal_board_remove(rows, address)
}

// Looks at a transmitter's row.
#[unsafe(no_mangle)]
pub extern "C" fn sisal_board_look_up(rows: &[Row], address: u16) -> Looked
    ensures { LooksUp rows.now address result }
{
    lending::sisal_board_look_up(rows, address)
}

// Writes the poll of a transmitter's row.
#[unsafe(no_mangle)]
pub extern "C" fn sisal_board_poll<'r, 'o>(
    rows: &'r [Row],
    address: u16,
    raise: u8,
    reset: u8,
    out: &'o mut [u8],
) -> u8
    ensures { PollsRow rows.now address raise reset out.old result out.new }
{
    lending::sisal_board_poll(rows, address, raise, reset, out)
}
