// Finding the slot that a save goes to.
ghost use Rattle.std.specs.Prelude.{◌≡◌, ◌<◌, ◌≤◌};
ghost use Rattle.sheet.specs.Slots.{slots, next};
ghost use Rattle.sheet.specs.Inside.Passing.{StopsAt};

use crate::bytes::blank;

// Passes over the blank slots that end the first `from`, MANY at a time, but not below `low`. Answers how many slots are left. A part of MANY slots has a
// constant size, so it is tested by a few wide operations. The count goes down by MANY, and it is the answer, so a `for` over parts would be no plainer.
fn pass<const MANY: usize>(sheet: &[u8], from: usize, low: usize) -> usize
    requires some { 0 < MANY }
    requires low_le_from { low ≤ from }
    requires from_bound { from ≤ slots sheet.now }
    ensures { StopsAt sheet.now MANY from low result }
{
    let mut k = from;
    while MANY <= k - low {
        let at = 32 * (k - MANY);
        if !blank(&sheet[at..at + 32 * MANY]) {
            return k;
        }
        k -= MANY;
    }
    k
}

// The slot after the last one that has a byte other than FF. The search goes backwards from the end: over the last eight slots one by one, so that a
// nearly full sheet is answered at once, then by blocks while they are blank, then one by one again. A hole among used slots is never looked at.
pub fn next_slot(sheet: &[u8]) -> usize
    ensures { result ≡ next sheet.now }
{
    let slots = sheet.len() / 32;
    let low = slots.saturating_sub(8);
    let near = pass::<1>(sheet, slots, low);
    if low < near {
        return near;
    }
    let far = pass::<8>(sheet, near, 0);
    pass::<1>(sheet, far, 0)
}
