// What a save is told as; the crate `telling` tells it.

// The stores of a save: the slot that it goes to, counted from 0; for each store, in order, its place within the slot and its byte, and zeros behind
// them; how many there are. Beside a refusal's number all else is 0.
#[repr(C)]
#[derive(Clone, Copy)]
pub struct SaveStores {
    pub slot: u32,
    pub places: [u8; 19],
    pub bytes: [u8; 19],
    pub count: u8,
    pub number: u8,
}
