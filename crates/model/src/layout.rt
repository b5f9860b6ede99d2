// What the reader keeps of a record: its sizes, and where each formula lies.
//
// All of it is plain numbers. The record stays with the caller, who lends it
// again to the calls that look at a formula.
use instruction::Sizes;

// Bytes of a record: the position of the first, and how many they are.
#[derive(Clone, Copy, Debug, PartialEq, Eq)]
pub struct Span {
    pub at: usize,
    pub len: usize,
}

// A formula of a record by what it is for; a reset formula by its clock.
#[derive(Clone, Copy, Debug, PartialEq, Eq)]
pub enum Role {
    Reset(u8),
    Start,
    Invariant,
    Transition,
    Urgent,
}

// Of `resets`, those of declared clocks count. No Vec, since nothing here allocates.
#[derive(Clone, Copy, Debug)]
pub struct Model {
    pub sizes: Sizes,
    pub resets: [Span; 4],
    pub start: Span,
    pub invariant: Span,
    pub transition: Span,
    pub urgent: Span,
}
