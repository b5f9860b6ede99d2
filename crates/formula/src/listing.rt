// The instructions of a formula, one after the other.
ghost use Rattle.std.specs.Prelude.{◌≡◌, length};
ghost use Rattle.std.specs.Iterator.{at_most};

use super::stepping::width_of;
use instruction::{Fault, Instruction, Section, Sizes, next_instruction};

// The bytes that are left of a formula, the position past them, and what they may speak of. It gives
// each instruction with the position of its mark, and ends behind the first fault. `accept` and
// `next_instruction` take the same four: it is made of them for the one, and makes calls of the other.
#[derive(Clone, Copy)]
pub struct Instructions<'a> {
    rest: &'a [u8],
    end: usize,
    sizes: &'a Sizes,
    section: Section,
}

impl<'a> Instructions<'a> {
    // Those of a formula of this section; `end` is the position past it.
    pub fn of(code: &'a [u8], end: usize, sizes: &'a Sizes, section: Section) -> Instructions<'a>
        ensures code { result.rest.now ≡ code.now }
        ensures end { result.end ≡ end }
        ensures sizes { result.sizes.now ≡ sizes.now }
        ensures section { result.section ≡ section }
    {
        Instructions {
            rest: code,
            end,
            sizes,
            section,
        }
    }
}

impl<'a> Instructions<'a> {
    // Those of a formula that has been accepted before, in whatever section: one of a transition may hold
    // every mark. Positions are all 0.
    pub fn anywhere(code: &'a [u8], sizes: &'a Sizes) -> Instructions<'a>
        ensures code { result.rest.now ≡ code.now }
        ensures end { result.end ≡ 0 }
        ensures sizes { result.sizes.now ≡ sizes.now }
        ensures section { result.section ≡ Section.Transition }
    {
        Instructions::of(code, 0, sizes, Section::Transition)
    }
}

impl<'a> Iterator for Instructions<'a> {
    ghost use Rattle.formula.specs.Listing.{Gives};

    type Item = Result<(usize, Instruction), Fault>;

    ghost next_gives = { Gives };

    ghost remaining = { λ s. at_most (length s.rest.now) };

    fn next(&mut self) -> Option<Result<(usize, Instruction), Fault>> {
        if self.rest.is_empty() {
            return None;
        }
        let at = self.end.saturating_sub(self.rest.len());
        match next_instruction(self.rest, self.end, self.sizes, self.section) {
            Ok(instruction) => {
                self.rest = &self.rest[width_of(instruction)..];
                Some(Ok((at, instruction)))
            }
            Err(fault) => {
                self.rest = &self.rest[..0];
                Some(Err(fault))
            }
        }
    }
}
