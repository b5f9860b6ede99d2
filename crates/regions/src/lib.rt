// Dense places: how clocks stand to whole numbers and to each other.
//
// A clock is over its ceiling, or has a whole part and a rank: 0 if it is on a
// whole number, and otherwise by the order of the fractions, equal ones alike.
// Ranks have no gaps, so two places that say the same are the same.
#![tactic(auto)]

mod clocks;
mod elapses;
mod gaps;
mod places;
mod resets;
mod texts;

pub use clocks::Clock;
pub use elapses::{elapse, some_sharp};
pub use places::Place;
pub use resets::reset;
