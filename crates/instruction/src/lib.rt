// One instruction of a formula, and what can be wrong with a record.
//
// A formula is written operands first, one mark to an instruction. The fault
// enum is declared here, at the lowest level, and travels up as it is through
// formula, section and record.
#![tactic(auto)]

mod counts;
mod faults;
mod front;
mod instructions;
mod sections;
mod sizes;

pub use faults::{Fault, Refusal};
pub use instructions::{Compare, Instruction, next_instruction};
pub use sections::Section;
pub use sizes::Sizes;
