// The lines of a listing and their parts. A slot's line has at most 40 bytes: slot 5, minute 10, address 5, level 5, temperature 6, the two alarms, six
// blanks and the line's end; each part asks for room by its own share of them.
ghost use Rattle.std.specs.Prelude.{◌≡◌, true, [], ◌++◌, ◌+◌, ◌<◌, ◌≤◌, length, take};
ghost use Rattle.frame.specs.Line.{bytes_for, mark};
ghost use Rattle.sheet.specs.Slots.{size_allowed, slots, slot_at, slot_of, record_in};
ghost use Rattle.sheet.specs.Look.{entry_with, record_told};
ghost use Rattle.putting.specs.Digit.{digit};
ghost use Rattle.putting.specs.Adds.{Adds, HasRoom};
ghost use Rattle.listing.specs.Text.{ascii, in_decimal};
ghost use Rattle.listing.specs.Lines.{temperature_text, reading_text, reply_text, record_text, slot_line};

use crate::text::{put_number, put_short};
use frame::{Fault, Reading, Temperature, is_plus, magnitude};
use putting::Text;
use sheet::{Found, Head, look};

// An alarm as a digit.
fn alarm(on: bool) -> u8
    ensures { result ≡ digit (mark on) }
{
    b'0' + u8::from(on)
}

// Degrees in tenths, "above", "below", or "-" where it is absent.
fn put_temperature(text: &mut Text, t: Temperature)
    requires { HasRoom text.old 6 }
    ensures { Adds (temperature_text t) 6 text.old text.new }
{
    match t {
        Temperature::Degrees(d) => {
            if !is_plus(d) {
                text.byte(b'-');
            }
            put_short(text, magnitude(d) as u16);
        }
        Temperature::Above => text.word(b"above"),
        Temperature::Below => text.word(b"below"),
        Temperature::Absent => text.byte(b'-'),
    }
}

// Level, temperature, alarm 1 and alarm 0.
fn put_reading(text: &mut Text, r: Reading)
    requires { HasRoom text.old 16 }
    ensures { Adds (reading_text r) 16 text.old text.new }
{
    put_short(text, r.level);
    text.byte(b' ');
    put_temperature(text, r.temperature);
    text.byte(b' ');
    text.byte(alarm(r.alarm1));
    text.byte(b' ');
    text.byte(alarm(r.alarm0));
}

// What a reply reads as: its reading, or "fault" and its number, and after 7 the place of the unreadable digit.
fn put_reply(text: &mut Text, reply: Result<Reading, Fault>)
    requires { HasRoom text.old 16 }
    ensures { Adds (reply_text reply) 16 text.old text.new }
{
    match reply {
        Ok(r) => put_reading(text, r),
        Err(Fault::InNoChart(place)) => {
            text.word(b"fault 7 ");
            put_short(text, u16::from(place));
        }
        Err(fault) => {
            text.word(b"fault ");
            put_short(text, u16::from(fault.number()));
        }
    }
}

// Minute, address, and what the reply reads as.
fn put_record(text: &mut Text, head: Head, reply: &[u8])
    requires { HasRoom text.old 33 }
    ensures { Adds (record_text (entry_with head reply.now)) 33 text.old text.new }
{
    put_number(text, head.minute);
    text.byte(b' ');
    put_short(text, head.address);
    text.byte(b' ');
    put_reply(
        text,
        frame::read_reply(head.settings, head.address, head.count, reply),
    );
}

// The line of a record. The bytes of its reply stand first in the eight.
fn put_line(text: &mut Text, slot: u16, head: Head, reply: [u8; 8])
    requires room { HasRoom text.old 40 }
    requires count_bound { head.count ≤ 64 }
    ensures { Adds (in_decimal slot ++ ascii " " ++ record_text (entry_with head (take (bytes_for head.count) reply)) ++ ascii "\n") 40
        text.old text.new }
{
    let size = head.count.div_ceil(8);
    put_short(text, slot);
    text.byte(b' ');
    put_record(text, head, &reply[..size]);
    text.byte(b'\n');
}

// The line of a slot that holds no record.
fn put_other(text: &mut Text, slot: u16, word: &[u8])
    requires { HasRoom text.old (5 + length word.now) }
    ensures { Adds (in_decimal slot ++ word.now) (5 + length word.now) text.old text.new }
{
    put_short(text, slot);
    text.word(word);
}

// How many records a slot holds: one or none.
pub(crate) fn records_in(found: Found) -> usize
    ensures { result ≡ length (record_told found []) }
{
    usize::from(matches!(found, Found::Record(_)))
}

// The line of a slot, none where it is blank. Answers how many records it shows.
pub(crate) fn put_slot(text: &mut Text, sheet: &[u8], slot: usize) -> usize
    requires room { HasRoom text.old 40 }
    requires sheet_value { size_allowed sheet.now ≡ true }
    requires slot_bound { slot < slots sheet.now }
    ensures puts { Adds (slot_line sheet.now slot) 40 text.old text.new }
    ensures records_value { result ≡ length (record_in (slot_of (slot_at sheet.now slot))) }
{
    let looked = look(sheet, slot);
    let number = slot as u16;
    match looked.found {
        Found::Blank | Found::Refused(_) => {}
        Found::Spoiled => put_other(text, number, b" spoiled\n"),
        Found::Foreign => put_other(text, number, b" foreign\n"),
        Found::Record(head) => put_line(text, number, head, looked.reply),
    }
    records_in(looked.found)
}

// The first line and the last: a word, a number, and the line's end.
pub(crate) fn put_count(text: &mut Text, word: &[u8], n: u16)
    requires { HasRoom text.old (length word.now + 6) }
    ensures { Adds (word.now ++ in_decimal n ++ ascii "\n") (length word.now + 6) text.old text.new }
{
    text.word(word);
    put_short(text, n);
    text.byte(b'\n');
}
