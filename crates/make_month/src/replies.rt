// Made-up transmitters: what each of 30 answers in each round of a month at a depot in late autumn.
use crate::tanks::Visit;
use frame::{Reading, Temperature};
use print::{Mode, Settings};

// A gauge that sticks, and two with a bad bulb, both of type 1800.
const STICKING: u16 = 8;

const BROKEN_BULB: u16 = 7;

const WET_BULB: u16 = 22;

// No mode has this level. It is sent as digits that nobody can read.
const NO_LEVEL: u16 = 65_535;

impl Visit {
    // Every tank's transmitter has this address, with these settings: all modes, both types and both parities are among them.
    pub(crate) fn address(self) -> u16 {
        101 + self.tank * 7
    }

    pub(crate) fn settings(self) -> u8 {
        (self.tank % 16) as u8
    }

    fn week(self) -> u16 {
        self.round / 14
    }

    // Its poll, counted from the first.
    pub(crate) fn poll(self) -> u16 {
        self.round * 30 + self.tank
    }

    // Lightning strikes the line of five transmitters, and they are silent for a week. Any other is silent now and then.
    pub(crate) fn is_silent(self) -> bool {
        self.tank / 5 == 2 && self.week() == 2 || self.poll() % 149 == 31
    }

    // The visit whose level is shown. A gauge that sticks shows the same for a week.
    fn shown(self) -> Visit {
        let round = if self.tank == STICKING && self.week() == 1 {
            14
        } else {
            self.round
        };
        Visit {
            tank: self.tank,
            round,
        }
    }

    // A full tank is 31 ft 3 in, 30.00 ft, 9.000 m or 12.000 m high, by its mode. In the week after it has stuck, the gauge fails.
    fn level(self, held: u16) -> u16 {
        if self.tank == STICKING && self.week() == 2 {
            return NO_LEVEL;
        }
        let tenths = match Settings::from(self.settings()).mode {
            Mode::Fractional => 6,
            Mode::Decimal => 3,
            Mode::Metres20 => 9,
            Mode::Metres30 => 12,
        };
        (u32::from(held % 10_001) * tenths / 10) as u16
    }

    // Tenths of a degree, at least -20.0: warmer by day than by night, colder from week to week, down to frost, and each ninth day a cold front.
    fn degrees(self) -> i16 {
        let day = self.round / 2;
        let above_least = 300 - day * 7 + day % 9 * 11 + self.round % 2 * 35 + self.tank % 7 * 4;
        above_least as i16 - 200
    }

    // Every third transmitter has no temperature bulb. One bulb breaks in the last week, another is wet for three days.
    fn temperature(self) -> Temperature {
        match self.tank {
            tank if tank % 3 == 0 => Temperature::Absent,
            BROKEN_BULB if 50 <= self.round => Temperature::Above,
            WET_BULB if self.round / 6 == 4 => Temperature::Below,
            _ => Temperature::Degrees(self.degrees()),
        }
    }

    // Alarm 1 tells that less than a fifth of the tank is left, alarm 0 less than a tenth.
    pub(crate) fn reading(self) -> Reading {
        let held = self.shown().held();
        Reading {
            level: self.level(held),
            temperature: self.temperature(),
            alarm1: held < 2000,
            alarm0: held < 1000,
        }
    }
}
