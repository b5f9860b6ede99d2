// Delays for the steps of a chain of places.
//
// The steps are gone through once. What is known of the present moment is how
// many parts a unit has and the fraction of each clock. Where clocks leave
// their whole numbers a unit gets one part more, right after the present
// moment, and the delays of all steps before are widened by that.
#![tactic(auto)]

mod paces;
mod widening;

pub use paces::{Pace, Passing};
pub use widening::widen;
