// The bytes of a whole formula, instruction by instruction.
ghost use Rattle.std.specs.Prelude.{◌≡◌};
ghost use Rattle.instruction.specs.Counts.{value_counts};
ghost use Rattle.formula.specs.Reader.{Accepts};

use super::listing::Instructions;
use super::stepping::waiting_after;
use instruction::{Fault, Section, Sizes};

// Whether the bytes are a formula of this section; `end` is the position past them. The struct of these
// four is `Instructions`, which this makes and walks through.
pub fn accept(code: &[u8], end: usize, sizes: &Sizes, section: Section) -> Result<(), Fault>
    ensures { Accepts (value_counts sizes.now) sizes.now.clocks section end code.now result }
{
    let mut waiting: u32 = 0;
    'instructions: for found in Instructions::of(code, end, sizes, section) {
        let (at, instruction) = found?;
        waiting = waiting_after(instruction, waiting, section, at)?;
    }
    if waiting == 1 {
        Ok(())
    } else {
        Err(Fault::Waiting(section, end))
    }
}
