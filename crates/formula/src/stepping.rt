// What an instruction does to the reading of a formula: how far it goes, and how many values wait.
ghost use Rattle.std.specs.Prelude.{◌≡◌};
ghost use Rattle.instruction.specs.Reader.{width, waits};

use instruction::{Fault, Instruction, Section};

// How many values may wait at a time.
const MOST_WAITING: u32 = 32;

// How many bytes an instruction takes.
pub fn width_of(instruction: Instruction) -> usize
    ensures { result ≡ width instruction }
{
    match instruction {
        Instruction::Is(_, _) | Instruction::Becomes(_, _) | Instruction::Clock(_, _, _) => 3,
        Instruction::Stays(_) => 2,
        Instruction::Always | Instruction::Not | Instruction::And | Instruction::Or => 1,
    }
}

// How many values wait after an instruction, if `waiting` did before it; `at` is the position of
// its mark.
pub(super) fn waiting_after(
    instruction: Instruction,
    waiting: u32,
    section: Section,
    at: usize,
) -> Result<u32, Fault>
    ensures { result ≡ waits instruction section at waiting }
{
    let after = match instruction {
        Instruction::Not => (waiting >= 1).then_some(waiting),
        Instruction::And | Instruction::Or => (waiting >= 2).then(|| waiting - 1),
        _ => (waiting < MOST_WAITING).then(|| waiting + 1),
    };
    after.ok_or(Fault::Waiting(section, at))
}
