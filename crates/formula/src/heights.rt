// How high the constants go that a clock is compared with.
ghost use Rattle.std.specs.Prelude.{◌≡◌};
ghost use Rattle.instruction.specs.Counts.{value_counts};
ghost use Rattle.formula.specs.Heights.{Heights, constant_of};

use super::listing::Instructions;
use instruction::{Instruction, Sizes};

fn constant_of(instruction: Instruction, clock: u8) -> u16
    ensures { result ≡ constant_of clock instruction }
{
    match instruction {
        Instruction::Clock(_, c, j) if c == clock => u16::from(j),
        _ => 0,
    }
}

// The largest constant that a clock is compared with in a formula, or 0. Of bytes that are no
// formula, the same of their instructions up to the first fault.
pub fn highest(code: &[u8], sizes: &Sizes, clock: u8) -> u16
    ensures { Heights (value_counts sizes.now) sizes.now.clocks clock code.now result }
{
    let mut height: u16 = 0;
    'instructions: for found in Instructions::anywhere(code, sizes) {
        let Ok((_, instruction)) = found else {
            return height;
        };
        height = height.max(constant_of(instruction, clock));
    }
    height
}
