// The layers of a pair's picture, put into an output: points, marks and words, one part for each record. It is for the crate that writes the page, which
// asks for room itself.
#![tactic(auto)]

pub mod gauge;
mod layer;
pub mod noting;
mod parts;
pub mod pass;

pub use layer::{Layer, UnknownLayer};
