// What the formulas of a record may speak of.
ghost use Rattle.std.specs.Prelude.{◌≡◌, ◌≤◌, true, take};
ghost use Rattle.instruction.specs.Sizes.{product, ranged};

// The first `variables` of `counts` are the numbers of values; `counts()` has just those. No Vec, since
// nothing here allocates.
#[derive(Clone, Copy, Debug)]
pub struct Sizes {
    pub counts: [u8; 8],
    pub variables: u8,
    pub clocks: u8,
    ghost few_variables: { variables ≤ 8 },
    ghost few_clocks: { clocks ≤ 4 },
    ghost in_range: { ranged (take variables counts) ≡ true },
    ghost few_valuations: { product (take variables counts) ≤ 1024 },
}
