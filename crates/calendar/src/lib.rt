// The calendar: the day that comes so many days after another, and a day read from text.
#![tactic(auto)]

mod counting;
mod leaps;
mod reading;

pub use counting::Day;
pub use leaps::after;
pub use reading::day_in;
