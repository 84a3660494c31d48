// Made-up tanks: how much is in each of 30 at each round, in ten-thousandths of a full tank. Rounds are made at six in the morning and in the
// evening; the first is on a Sunday. Every choice goes by remainders, so that each run gives the same card.
ghost use Rattle.std.specs.Prelude.{◌<◌};

// Two tanks that nothing is sold from: one has a slow leak, the other is at rest.
const LEAKING: u16 = 3;

const RESTING: u16 = 6;

// One of the 30 tanks at one of the month's 62 rounds.
#[derive(Clone, Copy)]
pub(crate) struct Visit {
    pub(crate) tank: u16,
    pub(crate) round: u16,
    ghost in_depot: { tank < 30 },
    ghost in_month: { round < 62 },
}

impl Visit {
    // Nothing is sold on Sundays.
    fn is_sunday(self) -> bool {
        self.round / 2 % 7 == 0
    }

    fn is_evening(self) -> bool {
        self.round % 2 == 1
    }

    // What is sold between this round and the next: by day a tank's own part, on some days more, and by night hardly anything.
    fn sold(self) -> u16 {
        if self.is_sunday() {
            0
        } else if self.is_evening() {
            20
        } else {
            350 + self.tank % 7 * 90 + (self.round * 53 + self.tank * 29) % 17 * 20
        }
    }

    // A delivery fills a tank nearly.
    fn filled(self) -> u16 {
        9000 + (self.round * 37 + self.tank * 101) % 800
    }

    // Of a tank that is found below this in the evening, the next delivery is by the morning. To every fourth it comes late.
    fn ordered_below(self) -> u16 {
        if self.tank % 4 == 1 { 900 } else { 2100 }
    }

    // What the tank holds at the round after this one, if it held so much at this one.
    fn next(self, held: u16) -> u16 {
        match self.tank {
            RESTING => held,
            LEAKING => held.saturating_sub(6),
            _ if held < self.ordered_below() && self.is_evening() => self.filled(),
            _ => held.saturating_sub(self.sold()),
        }
    }

    // What the tank holds, counted on from the first round. A loop, since a closure for `fold` is not told that its round comes before this one.
    pub(crate) fn held(self) -> u16 {
        let mut held = 2400 + self.tank * 1117 % 7000;
        for round in 0..self.round {
            held = Visit {
                round,
                tank: self.tank,
            }
            .next(held);
        }
        held
    }
}
