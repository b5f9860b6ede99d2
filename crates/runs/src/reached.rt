// Where a run has got to.

// A valuation, and the clocks in parts of a unit.
#[derive(Clone, Copy)]
pub struct Reached {
    pub valuation: u16,
    pub clocks: [u64; 4],
}
