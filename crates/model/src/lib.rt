// The model record: a supervisor table as bytes.
//
// A record is read from the left, section by section, and the first fault
// counts. What is accepted is the writing of exactly one sound system; what
// the reader hands back is that system's sizes and where its formulas lie.
// Reading is linear in the record's length and allocates nothing.
#![tactic(auto)]

mod layout;
mod packs;
mod parts;
mod questions;
mod records;
mod roles;
mod sections;

pub use layout::{Model, Role, Span};
pub use packs::Pack;
pub use parts::Part;
pub use questions::read_question;
pub use records::read;
