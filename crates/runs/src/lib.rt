// Runs of a table, and the check whether steps are one that reaches a question.
//
// A run's clocks are whole numbers of parts of a unit. The check follows the
// steps one by one; an elapse looks at a few moments for each whole number that
// a clock meets up to its ceiling, whatever the delay. Nothing is allocated.
#![tactic(auto)]

mod checking;
mod courses;
mod elapses;
mod moments;
mod moves;
mod reached;
mod waits;

pub use checking::check_run;
pub use kinds::Step;
pub use moments::Moment;
