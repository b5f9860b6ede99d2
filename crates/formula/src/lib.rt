// Formulas as a record writes them: operands first, one mark to an instruction.
//
// A formula is accepted when its instructions leave one value and never have
// more than 32 waiting; those bytes are the writing of exactly one tree.
// Nothing is copied and nothing is allocated.
#![tactic(auto)]

mod acceptance;
mod heights;
mod listing;
mod stepping;

pub use acceptance::accept;
pub use heights::highest;
pub use listing::Instructions;
pub use stepping::width_of;
