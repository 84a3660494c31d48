// Makes a month's card: 30 transmitters of a depot polled twice a day for 31 days, their replies saved by the real `save` on a blank sheet, with
// silent and damaged replies and power cuts among them. The card goes to standard output.
#![tactic(auto)]

mod replies;
mod tanks;

use frame::Fault;
use sheet::Head;
use std::io;
use tanks::Visit;

// The stores that the power holds for at this poll: more than any save needs, but for a few cuts.
fn allowance(n: u16) -> usize {
    if n % 211 == 97 {
        usize::from(n % 16)
    } else {
        64
    }
}

// Line noise: at a few polls the highest bit of one byte of the reply is turned.
fn damage(line: &mut [u8], n: u16) {
    if n % 83 == 41
        && let Some(byte) = line.get_mut(usize::from(n % 7))
    {
        *byte ^= 0x80;
    }
}

// Saves what came of a poll: the bytes of a reply, or none where the transmitter was silent. The sheet has more slots than there are polls, so no save is
// refused.
fn keep(sheet: &mut [u8], visit: Visit, reply: &[u8]) {
    let head = Head {
        settings: visit.settings(),
        minute: u32::from(visit.round) * 720 + 360 + u32::from(visit.tank),
        address: visit.address(),
        count: 8 * (reply.len() % 9),
    };
    let _ = sheet::save(sheet, head, reply, allowance(visit.poll()));
}

// What a transmitter answers, and how many bytes that has: 0 where it says nothing.
fn answer(visit: Visit, line: &mut [u8]) -> Result<usize, Fault> {
    if visit.is_silent() {
        return Ok(0);
    }
    frame::write_reply(visit.settings(), visit.address(), visit.reading(), line)
}

// One poll of one transmitter, which may say nothing.
fn poll(sheet: &mut [u8], visit: Visit) {
    let mut line = [0u8; 7];
    let Ok(size) = answer(visit, &mut line) else {
        return;
    };
    damage(&mut line, visit.poll());
    keep(sheet, visit, &line[..size.min(7)]);
}

// By number, since tank and round are worked out from it.
fn month(sheet: &mut [u8]) {
    for n in 0..1860 {
        poll(
            sheet,
            Visit {
                tank: n % 30,
                round: n / 30,
            },
        );
    }
}

fn main(rt: HostRuntime) -> io::Result<()> {
    let mut card = [0xffu8; 65536];
    month(&mut card);
    rt.write_all(&card)
}
