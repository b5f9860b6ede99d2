// Ticked time: clocks are whole numbers, and time passes by whole units.
//
// A clock above its ceiling is over; no formula can tell how far. A unit passes
// if the state is valid at its half and at its end: between two whole numbers
// every clock stays on the same side of every constant.
#![tactic(auto)]

mod clocks;
mod kind;
mod places;
mod readings;
mod texts;
mod trials;
mod units;

pub use kind::Ticked;
pub use places::{Place, Ticks};
pub use readings::Moment;
