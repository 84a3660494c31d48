// The rows that the host lends: the rows that count are copied out of them, and a run of rows is stored back.
ghost use Rattle.std.specs.Prelude.{◌≡◌, length};
ghost use Rattle.board.specs.Rows.{board_of};
ghost use Rattle.board.specs.Inside.ByValue.{filled, Finds, FitsIn, moved, carry};

use board::value::{Change, Found, Way};
use board::{Row, rows, value};
use std::mem;

// The rows that count, by value. Thirty of them are copied as they stand; free ones are put only behind fewer.
pub fn load(rows: &[Row]) -> [Row; 30]
    ensures { result ≡ filled (board_of rows.now) }
{
    if let Some(all) = rows.first_chunk::<30>() {
        return *all;
    }
    let mut held = rows::free_rows();
    held[..rows.len()].copy_from_slice(rows);
    held
}

// Searches the rows that count.
pub(crate) fn find(rows: &[Row], address: u16) -> Option<Found>
    ensures { Finds (board_of rows.now) address result }
{
    let held = load(rows);
    value::find(held, rows.len(), address)
}

// Each place of a run takes the row that comes, and hands on the one that stood in it to the next.
fn carry_on(run: &mut [Row], row: Row)
    ensures { run.new ≡ carry 1 0 (length run.old) 0 row run.old }
{
    let mut held = row;
    for place in run.iter_mut() {
        mem::swap(place, &mut held);
    }
}

// The same from the last place of a run to its first.
fn carry_back(run: &mut [Row], row: Row)
    ensures { run.new ≡ carry 0 1 (length run.old) (length run.old) row run.old }
{
    let mut held = row;
    for i in (0..run.len()).rev() {
        mem::swap(&mut run[i], &mut held);
    }
}

// Makes the change over its run of places.
pub(crate) fn put(rows: &mut [Row], c: Change)
    requires { FitsIn (length rows.old) c }
    ensures { rows.new ≡ moved c rows.old }
{
    match c.way {
        Way::Onward => carry_on(&mut rows[c.at..c.at + c.count], c.row),
        Way::Back => carry_back(&mut rows[c.at - c.count..c.at], c.row),
    }
}
