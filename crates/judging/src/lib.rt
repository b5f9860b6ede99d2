// Judging formulas: one loop with a stack of bits, for every reading of the clocks.
#![tactic(auto)]

mod judgement;
mod readings;
mod sides;
mod stack;

pub use judgement::judge;
pub use readings::{Reading, Seen};
pub use sides::Side;
