// The bench checks of the sheet.
use print::{FaultNumber, Hex};
use sheet::{Found, Head};
use std::io;

// The bench's record: a reply of a transmitter at address 7, polled at minute 600.
const BENCH: Head = Head {
    settings: 1,
    minute: 600,
    address: 7,
    count: 40,
};

const REPLY: &[u8] = b"\x80\x0e\x50\x00\x00";

// Looks at the first slot of a sheet.
pub(crate) fn first(rt: &impl Print, sheet: &[u8]) -> io::Result<()> {
    print!(rt; "sheet of {} bytes: slot 0 ", sheet.len())?;
    match sheet::look(sheet, 0).found {
        Found::Blank => println!(rt; "blank"),
        Found::Spoiled => println!(rt; "spoiled"),
        Found::Foreign => println!(rt; "foreign"),
        Found::Record(head) => println!(rt;
            "record, minute {}, address {}",
            head.minute, head.address
        ),
        Found::Refused(fault) => println!(rt; "{}", FaultNumber::from(fault)),
    }
}

// Saves the bench record with this allowance of stores, and prints the stores made, the slot's bytes and what it reads as.
pub(crate) fn save(rt: &impl Print, allowance: usize) -> io::Result<()> {
    let mut sheet = [0xff; 32];
    match sheet::save(&mut sheet, BENCH, REPLY, allowance) {
        Ok(n) => print!(rt; "{n} stores:")?,
        Err(fault) => println!(rt; "{}", FaultNumber::from(fault))?,
    }
    println!(rt; "{}", Hex(&sheet))?;
    first(rt, &sheet)
}

// Saves the bench record on a sheet of two slots, and prints the sheet's listing.
pub(crate) fn listing(rt: &impl Print) -> io::Result<()> {
    let mut sheet = [0xff; 64];
    let _ = sheet::save(&mut sheet, BENCH, REPLY, 16);
    listed(rt, &sheet)
}

// A sheet that was saved before bit 42 was read: the same bytes, in which the unit itself had set the bit.
pub(crate) fn old_sheet(rt: &impl Print) -> io::Result<()> {
    let mut sheet = [0xff; 32];
    let head = Head {
        settings: 5,
        count: 56,
        ..BENCH
    };
    let _ = sheet::save(&mut sheet, head, b"\x80\x0e\x50\x00\x00\xc6\x00", 18);
    listed(rt, &sheet)
}

fn listed(rt: &impl Print, sheet: &[u8]) -> io::Result<()> {
    let mut out = [0u8; 200];
    match listing::whole_listing(sheet, &mut out) {
        Ok(size) => rt.write_all(&out[..size]),
        Err(fault) => println!(rt; "{}", FaultNumber::from(fault)),
    }
}
