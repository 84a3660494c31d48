// The lines of the table: a heading, and one for each record.
use crate::fields::{Degrees, Level, Moment};
use calendar::Day;
use print::{FaultWords, Settings};
use sheet::{Found, Head, look};
use std::io;

pub(crate) fn heading(rt: &impl Print, begin: Option<Day>) -> io::Result<()> {
    let time = if begin.is_some() { "time" } else { "minute" };
    println!(rt;
        "slot,{time},address,mode,type,parity,level,unit,temperature,alarm 1,alarm 0,fault"
    )
}

// What the reply of a record reads as. A faulty one has no level, temperature and alarms. No record has more than 64 bits.
fn reply(rt: &impl Print, head: Head, bytes: [u8; 8]) -> io::Result<()> {
    let size = head.count.min(64).div_ceil(8);
    match frame::read_reply(head.settings, head.address, head.count, &bytes[..size]) {
        Ok(read) => {
            let settings = Settings::from(head.settings);
            let level = Level {
                settings,
                level: read.level,
            };
            let (alarm1, alarm0) = (u8::from(read.alarm1), u8::from(read.alarm0));
            println!(rt; "{level},{},{alarm1},{alarm0},", Degrees(read.temperature))
        }
        Err(fault) => println!(rt; ",,,,,{}", FaultWords(fault)),
    }
}

// The line of a slot, where it holds a record.
fn slot(rt: &impl Print, sheet: &[u8], k: usize, begin: Option<Day>) -> io::Result<()> {
    let looked = look(sheet, k);
    let Found::Record(head) = looked.found else {
        return Ok(());
    };
    let moment = Moment {
        begin,
        minute: head.minute,
    };
    let Settings {
        mode,
        transmitter,
        parity,
    } = Settings::from(head.settings);
    print!(rt;
        "{k},{moment},{},{mode},{transmitter},{parity},",
        head.address
    )?;
    reply(rt, head, looked.reply)
}

// By number, as `look` asks for a slot, and a line begins with it.
pub(crate) fn all(rt: &impl Print, sheet: &[u8], begin: Option<Day>) -> io::Result<()> {
    for k in 0..sheet.len() / 32 {
        slot(rt, sheet, k, begin)?;
    }
    Ok(())
}
