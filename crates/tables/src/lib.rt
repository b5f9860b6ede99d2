// What the formulas of a record say, for every reading of the clocks.
#![tactic(auto)]

mod formulas;
mod settings;
mod standings;
mod trials;

pub use formulas::{holds, resets, says};
pub use settings::Setting;
pub use trials::{Trials, moves, starts};
