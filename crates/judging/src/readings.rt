// Readings: all that a formula is told of the clocks.
ghost use Rattle.std.specs.Prelude.{◌≡◌, ℕ};
ghost use Rattle.judging.specs.declared.sides.Side.{Side};
ghost use Rattle.judging.specs.Truth.{Ordered};

use super::sides::Side;

// Where each clock stands to each constant.
pub trait Reading {
    ghost side: { Self → ℕ → ℕ → Side };

    fn side_of(&self, clock: u8, constant: u16) -> Side
        ensures { result ≡ side self.now clock constant };

    // The law of readings: below a constant is below each larger one, above it is above each
    // smaller one, at it is both.
    ghost ordered: { (r : Self) → Ordered (side r) };
}

// What a formula is judged by: the clocks as they are read, the values of the variables, and their
// next values.
#[derive(Clone, Copy)]
pub struct Seen<'a, R> {
    pub reading: &'a R,
    pub values: &'a [u8; 8],
    pub next: &'a [u8; 8],
}
