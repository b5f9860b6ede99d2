// Reading the instruction at the front of what is left of a formula.
//
// The checks of one instruction come in a fixed order: the mark is known, the
// section allows it, its bytes are all there, the index is declared, the value
// is in range.
ghost use Rattle.std.specs.Prelude.{◌≡◌, ◌+◌, ◌^◌, ◌<◌, Ok, Err, IfOk, cond, length};
ghost use Rattle.instruction.specs.declared.faults.Fault.TheVariants.{Barred};

use super::faults::Fault;
use super::instructions::{Compare, Instruction};
use super::sections::Section;
use super::sizes::Sizes;

// The largest constant that a clock may be compared with.
const LARGEST_CONSTANT: u8 = 250;

// The bytes that are left, the position of the first, and what they may speak of.
#[derive(Clone, Copy)]
pub(super) struct Front<'a> {
    pub(super) rest: &'a [u8],
    pub(super) at: usize,
    pub(super) sizes: &'a Sizes,
    pub(super) section: Section,
    ghost room: { at + length rest.now < 2 ^ 64 },
}

impl Front<'_> {
    ghost use Rattle.instruction.specs.Counts.{value_counts};
    ghost use Rattle.instruction.specs.Reader.{operands, bounded, pair, single, clocked, comparison, is_part, becomes_part, stays_part, marked};

    // Whether the section has such marks.
    fn allowed(&self, has: bool) -> Result<(), Fault>
        ensures { result ≡ cond has (Ok tt) (Err (Barred self.now.section self.now.at)) }
    {
        if has {
            Ok(())
        } else {
            Err(Fault::Barred(self.section, self.at))
        }
    }

    // Two operands behind the mark.
    fn operands(&self) -> Result<(u8, u8), Fault>
        ensures is { result ≡ operands self.now.section self.now.at self.now.rest.now }
        ensures there { IfOk result (λ _. 2 < length self.now.rest.now) }
    {
        let [_, x, y, ..] = self.rest else {
            return Err(Fault::CutShort(self.section, self.at));
        };
        Ok((*x, *y))
    }

    // They are in range: the first is declared, if it has a bound for the second.
    fn bounded(&self, x: u8, y: u8, bound: Option<u8>) -> Result<(u8, u8), Fault>
        requires { 2 < length self.now.rest.now }
        ensures { result ≡ bounded self.now.section self.now.at x y bound }
    {
        match bound {
            Some(n) if y < n => Ok((x, y)),
            Some(_) => Err(Fault::OutOfRange(self.section, self.at + 2)),
            None => Err(Fault::Undeclared(self.section, self.at + 1)),
        }
    }

    // A variable and one of its values.
    fn value(&self) -> Result<(u8, u8), Fault>
        ensures { result ≡ pair (value_counts self.now.sizes.now) self.now.section self.now.at self.now.rest.now }
    {
        let (i, k) = self.operands()?;
        let count = self.sizes.counts().get(i as usize).copied();
        self.bounded(i, k, count)
    }

    // A clock and a constant.
    fn clock(&self) -> Result<(u8, u8), Fault>
        ensures { result ≡ clocked self.now.sizes.now.clocks self.now.section self.now.at self.now.rest.now }
    {
        let (c, j) = self.operands()?;
        let past = (c < self.sizes.clocks).then_some(LARGEST_CONSTANT + 1);
        self.bounded(c, j, past)
    }

    // A variable.
    fn variable(&self) -> Result<u8, Fault>
        ensures { result ≡ single (value_counts self.now.sizes.now) self.now.section self.now.at self.now.rest.now }
    {
        let [_, i, ..] = self.rest else {
            return Err(Fault::CutShort(self.section, self.at));
        };
        if (*i as usize) < self.sizes.counts().len() {
            Ok(*i)
        } else {
            Err(Fault::Undeclared(self.section, self.at + 1))
        }
    }

    // `v`: a variable has a value.
    fn is(&self) -> Result<Instruction, Fault>
        ensures { result ≡ is_part (value_counts self.now.sizes.now) self.now.section self.now.at self.now.rest.now }
    {
        let (i, k) = self.value()?;
        Ok(Instruction::Is(i, k))
    }

    // `n`: its next value is this one.
    fn becomes(&self) -> Result<Instruction, Fault>
        ensures { result ≡ becomes_part (value_counts self.now.sizes.now) self.now.section self.now.at self.now.rest.now }
    {
        self.allowed(self.section.has_next())?;
        let (i, k) = self.value()?;
        Ok(Instruction::Becomes(i, k))
    }

    // `s`: its next value is its present one.
    fn stays(&self) -> Result<Instruction, Fault>
        ensures { result ≡ stays_part (value_counts self.now.sizes.now) self.now.section self.now.at self.now.rest.now }
    {
        self.allowed(self.section.has_next())?;
        let i = self.variable()?;
        Ok(Instruction::Stays(i))
    }

    // A clock compares so with a constant.
    fn compared(&self, compare: Compare) -> Result<Instruction, Fault>
        ensures { result ≡ comparison compare self.now.sizes.now.clocks self.now.section self.now.at self.now.rest.now }
    {
        self.allowed(self.section.has_clocks())?;
        let (c, j) = self.clock()?;
        Ok(Instruction::Clock(compare, c, j))
    }

    // The instruction that begins with this mark.
    pub(super) fn marked(&self, mark: char) -> Result<Instruction, Fault>
        ensures { result ≡ marked mark (value_counts self.now.sizes.now) self.now.sizes.now.clocks self.now.section self.now.at self.now.rest.now }
    {
        match mark {
            'v' => self.is(),
            'n' => self.becomes(),
            's' => self.stays(),
            '<' => self.compared(Compare::Less),
            'l' => self.compared(Compare::AtMost),
            '=' => self.compared(Compare::Exactly),
            'g' => self.compared(Compare::AtLeast),
            '>' => self.compared(Compare::More),
            't' => Ok(Instruction::Always),
            '!' => Ok(Instruction::Not),
            '&' => Ok(Instruction::And),
            '|' => Ok(Instruction::Or),
            _ => Err(Fault::UnknownMark(self.section, self.at)),
        }
    }
}
