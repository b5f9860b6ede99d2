// One loop judges every formula, whatever the reading.
//
// Each instruction pushes a bit or takes one or two and pushes one. An accepted
// formula never has more than 32 bits waiting, so none is lost; of any other
// bytes the answer is what the loop makes of them up to the first that is no
// instruction.
ghost use Rattle.std.specs.Prelude.{◌≡◌, slice_index};
ghost use Rattle.instruction.specs.Counts.{value_counts};
ghost use Rattle.judging.specs.Truth.{meets};
ghost use Rattle.judging.specs.Judging.{after, Judges};
ghost use Rattle.judging.specs.Shown.{shown_by};

use super::readings::{Reading, Seen};
use super::sides::Side;
use super::stack::{lowest, pushed};
use formula::Instructions;
use instruction::{Compare, Instruction, Sizes};

// Whether a clock on that side of a constant compares so with it.
fn meets(compare: Compare, side: Side) -> bool
    ensures { result ≡ meets compare side }
{
    match compare {
        Compare::Less => side == Side::Below,
        Compare::AtMost => side != Side::Above,
        Compare::Exactly => side == Side::At,
        Compare::AtLeast => side != Side::Below,
        Compare::More => side == Side::Above,
    }
}

// The value of a variable, 0 where there is none.
fn value_of(values: &[u8; 8], variable: u8) -> u8
    ensures { result ≡ slice_index values.now variable }
{
    values.get(variable as usize).copied().unwrap_or(0)
}

// What waits after an instruction.
fn applied<R: Reading>(instruction: Instruction, stack: u32, shown: &Seen<'_, R>) -> u32
    ensures { result ≡ after (shown_by R.side shown.now) instruction stack }
{
    let value = |i| value_of(shown.values, i);
    let next = |i| value_of(shown.next, i);
    match instruction {
        Instruction::Is(i, k) => pushed(stack, value(i) == k),
        Instruction::Becomes(i, k) => pushed(stack, next(i) == k),
        Instruction::Stays(i) => pushed(stack, next(i) == value(i)),
        Instruction::Clock(o, c, j) => {
            pushed(stack, meets(o, shown.reading.side_of(c, u16::from(j))))
        }
        Instruction::Always => pushed(stack, true),
        Instruction::Not => pushed(stack >> 1, !lowest(stack)),
        Instruction::And => pushed(stack >> 2, lowest(stack >> 1) && lowest(stack)),
        Instruction::Or => pushed(stack >> 2, lowest(stack >> 1) || lowest(stack)),
    }
}

// Whether a formula holds of what is seen.
pub fn judge<R: Reading>(code: &[u8], sizes: &Sizes, shown: &Seen<'_, R>) -> bool
    ensures { Judges (value_counts sizes.now) sizes.now.clocks (shown_by R.side shown.now) code.now result }
{
    let mut stack: u32 = 0;
    'instructions: for found in Instructions::anywhere(code, sizes) {
        let Ok((_, instruction)) = found else {
            return false;
        };
        stack = applied(instruction, stack, shown);
    }
    lowest(stack)
}
