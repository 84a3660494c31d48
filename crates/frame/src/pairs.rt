// Levels read two digits at a time: the number of a pair of decimal codes is looked up in a table (document 02, request 07).
ghost use Rattle.std.specs.Prelude.{◌≡◌, Bool, suc, ◌+◌, ◌-◌, ◌*◌, ◌/◌, ◌%◌, ◌^◌, ◌<◌, ◌≤◌, eqb};
ghost use Rattle.frame.specs.Pick.{pick};
ghost use Rattle.frame.specs.Line.{mark};
ghost use Rattle.frame.specs.Level.{Level};
ghost use Rattle.frame.specs.Pairs.{no_pair, table_entry, index_of, read_pairs, uncounted};
ghost use Rattle.frame.specs.Inside.Packed.{read_code, Below, level_number};
ghost use Rattle.frame.specs.Inside.Constants.{read_pairs_by};

use crate::constants::Constants;
use crate::pair_table::Entries;
use crate::{level, pair_table};

// The mark for a pair in no chart. Every pair's number is below it.
const NO_PAIR: u64 = 255;

// The table's entry for a pair of codes, its first digit turned or straight; the codes stand side by side in eight bits.
fn entry(odd: bool, codes: u64) -> u64
    requires { codes < 256 }
    ensures { result ≡ table_entry (mark odd * 256 + codes) }
{
    let Entries { straight, turned } = pair_table::eight(codes / 8);
    let word = if odd { turned } else { straight };
    (word >> (8 * (codes % 8))) % 256
}

// The entry of the top one of `left` pairs.
fn top_pair(left: u64, bits: u64, odd: bool) -> u64
    requires left_nonzero { 0 < left }
    requires left_bound { left ≤ 4 }
    ensures { result ≡ table_entry (index_of odd (bits / 2 ^ (8 * (left - 1) + 4) % 16) (bits / 2 ^ (8 * (left - 1)) % 16)) }
{
    entry(odd, (bits >> (8 * (left - 1))) % 256)
}

// The place of the digit in no chart of a pair that is marked. The table is asked again, with 0000 for the second code, which is in the chart from
// either end: it is marked again exactly if the first code is in no chart.
fn lost_place(left: u64, bits: u64, odd: bool, place: u64) -> u64
    requires left_nonzero { 0 < left }
    requires left_bound { left ≤ 4 }
    requires place_bound { place ≤ 8 }
    ensures { (result ≡ pick (eqb (table_entry (index_of odd (bits / 2 ^ (8 * (left - 1) + 4) % 16) 0)) no_pair) place (suc place)) × (result ≤ 9) }
{
    let first = (bits >> (8 * (left - 1) + 4)) % 16;
    if entry(odd, 16 * first) == NO_PAIR {
        return place;
    }
    place + 1
}

// The level of the pairs so far and one more below them.
fn with_pair(sofar: u64, pair: u64) -> u64
    requires sofar_bound { sofar < 2 ^ 32 }
    requires pair_bound { pair < 256 }
    ensures { result ≡ sofar * 100 + pair }
{
    sofar * 100 + pair
}

// The pairs are read from the top, fewer left each time. `odd` tells of the digit just above, `sofar` is the level of the digits above, and
// `place` counts them. A pair's number is odd exactly if its second digit is.
fn read_pairs(left: u64, bits: u64, odd: bool, sofar: u64, place: u64) -> u64
    requires left_bound { (sofar + 1) * 100 ^ left ≤ 2 ^ 32 }
    requires left_bound_2 { place + 2 * left ≤ 8 }
    ensures { result ≡ read_code (read_pairs left bits odd sofar place) }
{
    if left == 0 {
        return sofar;
    }
    let pair = top_pair(left, bits, odd);
    if pair == NO_PAIR {
        return level::LOST + lost_place(left, bits, odd, place);
    }
    let next = with_pair(sofar, pair);
    read_pairs(left - 1, bits, pair % 2 == 1, next, place + 2)
}

// What was read, as `level::judged` has it, with a place counted from the first digit of the mode: digits 0000 that stand before it are not
// counted.
fn judged(largest: u64, zeros: u64, v: u64) -> u64
    ensures { (l : Level) → Below (2 ^ 32) l → v ≡ read_code l → result ≡ level_number largest (uncounted zeros l) }
{
    if level::LOST <= v {
        return 7 * level::FAULT + (v - level::LOST).saturating_sub(zeros);
    }
    level::judged(largest, v)
}

// A level by its mode's constants, as `modes::read` has it, two digits at a time. A digit 0000 stands before digits that are odd in number: read
// straight it is 0 and even, so that the first digit of the mode is still read straight.
pub(crate) fn read_by(k: Constants, n: u64) -> u64
    ensures { result ≡ read_pairs_by k n }
{
    if !k.fill_clear(n) {
        return 6 * level::FAULT;
    }
    let v = read_pairs((k.digits + 1) / 2, k.digit_bits(n), k.start, 0, 0);
    judged(k.largest, k.digits % 2, v)
}
