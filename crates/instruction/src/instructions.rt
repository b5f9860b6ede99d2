// One instruction at the front of a formula's bytes.
//
// The first byte is a mark, a printable character; its operands follow, one
// byte each.
ghost use Rattle.std.specs.Prelude.{◌-◌, length};
ghost use Rattle.instruction.specs.Counts.{value_counts};
ghost use Rattle.instruction.specs.Promise.{Instructs};

use super::faults::Fault;
use super::front::Front;
use super::sections::Section;
use super::sizes::Sizes;

// How a clock is compared with a constant.
#[derive(Clone, Copy, Debug, PartialEq, Eq)]
pub enum Compare {
    Less,
    AtMost,
    Exactly,
    AtLeast,
    More,
}

#[derive(Clone, Copy, Debug, PartialEq, Eq)]
pub enum Instruction {
    // a variable has a value
    Is(u8, u8),
    // its next value is this one
    Becomes(u8, u8),
    // its next value is its present one
    Stays(u8),
    // a clock compares so with a constant
    Clock(Compare, u8, u8),
    Always,
    Not,
    And,
    Or,
}

// The instruction at the front of what is left of a formula; `end` is the position past the
// formula. The struct of these four is `Front`, which this makes.
pub fn next_instruction(
    rest: &[u8],
    end: usize,
    sizes: &Sizes,
    section: Section,
) -> Result<Instruction, Fault>
    ensures { Instructs (value_counts sizes.now) sizes.now.clocks section (end - length rest.now) rest.now result }
{
    let at = end.saturating_sub(rest.len());
    let [mark, ..] = rest else {
        return Err(Fault::CutShort(section, at));
    };
    let front = Front {
        rest,
        at,
        sizes,
        section,
    };
    front.marked(*mark as char)
}
