// Kinds of time: all that is told of time, whatever it is made of.
//
// A kind of time has places of its own make, start trials and step trials. A
// trial gives one place or nothing; asking never refuses, changes nothing, and
// gets the same when put again. What a kind means is one record of functions,
// and the law that all kinds keep speaks of that record alone.
#![tactic(auto)]

mod clocks;
mod fours;
mod records;
mod slots;
mod steps;
mod texts;
mod time;

pub use clocks::Clocked;
pub use fours::{begun, clock_or, restarted};
pub use records::tried;
pub use slots::{mixed, slot_of};
pub use steps::{MOST_RECORDS, MOST_STEPS, Step, StepKind, UnknownKind};
pub use texts::Told;
pub use time::Time;
