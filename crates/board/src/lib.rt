// The board of last good readings by value: a row and what becomes of it, the rows that count as an array of thirty, one search of it, and what each
// call decides of what was found. The calls themselves, over rows that the host lends, stand in `lending`.
#![tactic(auto)]

mod gauge;
pub mod rows;
pub mod value;

// A row as the host lends it: 24 bytes with no hole, integers alone, so that every bit pattern is a row. All zeros is a free row.
#[repr(C)]
#[derive(Clone, Copy, Default)]
pub struct Row {
    pub minute: u32,
    pub address: u16,
    pub level: u16,
    pub tenths: i16,
    pub settings: u8,
    pub fault: u8,
    // 0 for a free row, any other number for one in use
    pub used: u8,
    // The last good reading: 0 none yet; else by its temperature, 1 degrees, 2 above, 3 below, 4 or any other number absent.
    pub kind: u8,
    // 0 for no alarm, any other number for an alarm
    pub alarm1: u8,
    pub alarm0: u8,
    // The minute of the latest hearing; none while kind and fault are both 0.
    pub heard: u32,
    // Faulty replies since the last good one or since enrolment; it stays at 65,535.
    pub faulty: u16,
    // Beside fault 7 the place of the unreadable digit, counted from 0 at the top; it means nothing beside another fault.
    pub place: u8,
    // Bits 0 and 1 the sensor profile, 1 copper, 2 platinum, any other none; bit 2 the mark of a 6500; the rest is not read.
    pub gauge: u8,
}

// What hearing answers: the number, 0 for a good reply, and beside 7 the place of the first digit in no chart; beside any other, place 0.
#[repr(C)]
#[derive(Clone, Copy)]
pub struct Heard {
    pub number: u8,
    pub place: u8,
}

// What looking answers: the refusal's number alone, or number 0 and what the row holds. It is laid out as a row is; its kind is at
// most 4, its alarms are 0 or 1, and its gauge is the profile, 0 to 2, and 4 more with the mark.
#[repr(C)]
#[derive(Clone, Copy, Default)]
pub struct Looked {
    pub minute: u32,
    pub address: u16,
    pub level: u16,
    pub tenths: i16,
    pub settings: u8,
    pub fault: u8,
    pub number: u8,
    pub kind: u8,
    pub alarm1: u8,
    pub alarm0: u8,
    pub heard: u32,
    pub faulty: u16,
    pub place: u8,
    pub gauge: u8,
}
