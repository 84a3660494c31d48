// The stores of a save, made one after another.
ghost use Rattle.std.specs.Prelude.{◌≡◌, [], ◌∷◌, ◌+◌, ◌≤◌, ◌<◌, length, set, take};
ghost use Rattle.sheet.specs.Record.{after_length};
ghost use Rattle.sheet.specs.Stores.{◌puts◌, made, ascending};
ghost use Rattle.sheet.specs.Look.{entry_with};
ghost use Rattle.sheet.specs.Inside.InSlot.{MakesStores};

use crate::Head;

// The one way in which a sheet is written: this single byte changes.
fn store(sheet: &mut [u8], place: usize, byte: u8)
    requires { place < length sheet.old }
    ensures { sheet.new ≡ set sheet.old place byte }
{
    sheet[place] = byte;
}

// The bytes of a record between its length and its reply.
pub fn before_reply(head: Head) -> [u8; 9]
    requires { head.count ≤ 64 }
    ensures { result ≡ after_length (entry_with head []) }
{
    let [m0, m1, m2, m3] = head.minute.to_be_bytes();
    let [a0, a1] = head.address.to_be_bytes();
    [1, head.settings, m0, m1, m2, m3, a0, a1, head.count as u8]
}

// Stores the first `many` bytes of a row, ascending from a place. Each turn has its own test, and the loop ends at a constant: so the compiler writes the
// turns out and each is one store behind one test. A loop that did nothing but copy would become a block copy, of wide stores in any order.
fn store_row(sheet: &mut [u8], at: usize, row: &[u8], many: usize)
    requires many_bound { many ≤ 9 }
    requires many_in_bounds { many ≤ length row.now }
    requires many_in_bounds_2 { at + many ≤ length sheet.old }
    ensures { sheet.new ≡ made sheet.old (take many (ascending at row.now)) }
{
    for i in 0..9 {
        if i < many {
            store(sheet, at + i, row[i]);
        }
    }
}

// Stores a length into the slot that begins at `at`, the low byte and then the high, which no length needs.
fn store_length(sheet: &mut [u8], at: usize, size: usize, many: usize)
    requires size_bound { size < 256 }
    requires at_in_bounds { at + 2 ≤ length sheet.old }
    ensures { sheet.new ≡ made sheet.old (take many ((at + 1) puts size ∷ at puts 0 ∷ [])) }
{
    if 0 < many {
        store(sheet, at + 1, size as u8);
    }
    if 1 < many {
        store(sheet, at, 0);
    }
}

// Makes a record's first stores into the slot that begins at `at`, as many as are allowed, and answers how many: from the version on, ascending; then the
// length. So a cut leaves a slot that begins with FF. The order is the same whatever the allowance.
pub(crate) fn make_stores(
    sheet: &mut [u8],
    at: usize,
    head: Head,
    reply: &[u8],
    allowance: usize,
) -> usize
    requires at_in_bounds { at + 32 ≤ length sheet.old }
    requires count_bound { head.count ≤ 64 }
    requires reply_len_bound { length reply.now ≤ 8 }
    ensures { MakesStores sheet.old at (entry_with head reply.now) allowance result sheet.new }
{
    let bytes = before_reply(head);
    let size = 9 + reply.len();
    let of_reply = allowance.saturating_sub(9);
    store_row(sheet, at + 2, &bytes, allowance.min(9));
    store_row(sheet, at + 11, reply, of_reply.min(reply.len()));
    store_length(sheet, at, size, allowance.saturating_sub(size));
    allowance.min(size + 2)
}
