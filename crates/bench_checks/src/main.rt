// Runs the bench checks of document 01 that are not proved as one table, through the public calls, and prints what each call answered.
#![tactic(auto)]

mod lines;
mod shown;
mod slots;
mod steps;

use std::io;

fn temperatures(rt: &impl Print) -> io::Result<()> {
    for (name, settings, tenths) in [
        ("1900, 799.9", 1, 7999),
        ("1800, 100.0", 5, 1000),
        ("1800, 199.9", 5, 1999),
        ("1800, 200.0", 5, 2000),
        ("1800, -100.0", 5, -1000),
    ] {
        print!(rt; "{name}:")?;
        lines::temperature(rt, settings, tenths)?;
    }
    Ok(())
}

fn counts(rt: &impl Print) -> io::Result<()> {
    let replies: [(usize, &[u8]); 7] = [
        (0, b""),
        (39, b"\x80\x0e\x50\x00\x00"),
        (40, b"\x80\x0e\x50\x00\x00"),
        (41, b"\x80\x0e\x50\x00\x00\x00"),
        (56, b"\x80\x0e\x50\x00\x01\x62\x47"),
        (64, b"\x80\x0e\x50\x00\x00\x00\x00\x00"),
        (65, b"\x80\x0e\x50\x00\x00\x00\x00\x00\x00"),
    ];
    for (bits, bytes) in replies {
        lines::count(rt, bits, bytes)?;
    }
    Ok(())
}

fn main(rt: HostRuntime) -> io::Result<()> {
    let rt = &rt;
    temperatures(rt)?;
    print!(rt; "last byte 01: ")?;
    shown::reply(rt, frame::read_reply(1, 7, 40, b"\x80\x0e\x50\x00\x01"))?;
    counts(rt)?;
    lines::address(rt, 999, b"\x93\x32\x50\x00\x01")?;
    lines::address(rt, 1000, b"\x80\x0e\x50\x00\x00")?;
    slots::first(rt, &[])?;
    slots::first(rt, &[0xff; 31])?;
    slots::first(rt, &[0xff; 32])?;
    slots::save(rt, 16)?;
    slots::save(rt, 15)?;
    slots::listing(rt)?;
    slots::old_sheet(rt)?;
    steps::neighbours(rt)?;
    lines::second_reader(rt)
}
