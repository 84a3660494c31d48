// What the records of a pair come to, in one pass over its slots: last level, lowest and highest temperature, and a count of each kind of reply.
ghost use Rattle.std.specs.Prelude.{◌≡◌, ◌<◌};
ghost use Rattle.sheet.specs.Slots.{list_of};
ghost use Rattle.summary.specs.Worked.{entries_of_pair};
ghost use Rattle.layers.specs.Gauged.{reply_kind, side_in, one_more, with_reply, gauged_of};

use crate::noting::{Noted, record_of};
use crate::parts::{heat_in, level_in};
use frame::{Fault, Reading, Temperature};

// The last level and its minute; temperatures as they are drawn; and a count for each kind of reply: 0 good, 1 to 9 the fault's number, 11 to 15 the place
// of an unreadable digit, 16 and 17 temperatures above and below the scale, 18 others.
// Without a level `last` is 0xffff, and without a temperature `cold` is above `warm`: no `Option`s, since the definitions that the page is said by speak of
// these numbers (`not_gauged`, `last_text`, `heat_text`) and may not change.
#[derive(Clone, Copy)]
pub struct Gauged {
    pub last: u16,
    pub when: u32,
    pub cold: u16,
    pub warm: u16,
    pub counts: [u32; 19],
}

// The count of a reply, by its kind.
fn kind_in(reply: Result<Reading, Fault>) -> usize
    ensures value { result ≡ reply_kind reply }
    ensures upper_bound { result < 19 }
{
    match reply {
        Err(Fault::InNoChart(place)) if place < 6 => 10 + usize::from(place),
        Err(fault) if fault.number() < 10 => usize::from(fault.number()),
        _ => 0,
    }
}

// The count of its temperature, by the side of the scale.
fn side_in(reply: Result<Reading, Fault>) -> usize
    ensures value { result ≡ side_in reply }
    ensures upper_bound { result < 19 }
{
    let Ok(r) = reply else {
        return 18;
    };
    match r.temperature {
        Temperature::Above => 16,
        Temperature::Below => 17,
        Temperature::Degrees(_) | Temperature::Absent => 18,
    }
}

// One more of a count.
fn one_more(mut counts: [u32; 19], k: usize) -> [u32; 19]
    requires { k < 19 }
    ensures { result ≡ one_more counts k }
{
    counts[k] = counts[k].saturating_add(1);
    counts
}

impl Gauged {
    // With one reply more.
    fn with_reply(self, minute: u32, reply: Result<Reading, Fault>) -> Gauged
        ensures { result ≡ with_reply self minute reply }
    {
        let level = level_in(reply);
        let heat = heat_in(reply);
        Gauged {
            last: level.unwrap_or(self.last),
            when: if level.is_some() { minute } else { self.when },
            cold: heat.map_or(self.cold, |y| y.min(self.cold)),
            warm: heat.map_or(self.warm, |y| y.max(self.warm)),
            counts: one_more(one_more(self.counts, kind_in(reply)), side_in(reply)),
        }
    }
}

// What the records of a pair come to, of the slots that were noted of it.
pub fn gauge(noted: Noted) -> Gauged
    ensures { result ≡ gauged_of (entries_of_pair noted.entry.pair (list_of noted.entry.sheet.now)) }
{
    let mut g = Gauged {
        last: 0xffff,
        when: 0,
        cold: 0xffff,
        warm: 0,
        counts: [0; 19],
    };
    for &slot in noted.own {
        if let Some(seen) = record_of(noted.sheet, usize::from(slot), noted.pair) {
            g = g.with_reply(seen.minute, seen.reply);
        }
    }
    g
}
