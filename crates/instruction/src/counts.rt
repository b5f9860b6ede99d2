// The numbers of values that a record declares.
ghost use Rattle.std.specs.Prelude.{◌≡◌};
ghost use Rattle.instruction.specs.Counts.{value_counts};

use super::sizes::Sizes;

impl Sizes {
    // One for each variable, from 2 to 16.
    pub fn counts(&self) -> &[u8]
        ensures { result.now ≡ value_counts self.now }
    {
        &self.counts[..self.variables as usize]
    }
}
