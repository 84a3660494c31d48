// Text for people, put into an output: forms with numbers in them, and moments, levels, modes and faults in words. It is for the crates
// that write pages; they ask for room themselves, as these calls want it.
#![tactic(auto)]

pub mod days;
pub mod form;
pub mod words;
