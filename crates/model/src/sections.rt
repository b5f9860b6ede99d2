// Sections 2 to 6: formulas, each behind a count of two bytes.
ghost use Rattle.std.specs.Prelude.{◌≡◌, IfOk};
ghost use Rattle.model.specs.Reading.{layouts};
ghost use Rattle.model.specs.Cuts.{due, resets_due, all_due, IsLater, cuts, gathered};

use super::layout::{Model, Span};
use formula::accept;
use instruction::{Fault, Section, Sizes};

// How many bytes a formula may have.
pub(super) const LONGEST_FORMULA: usize = 2000;

// What is left of a record of `end` bytes, and what its formulas may speak of.
#[derive(Clone, Copy)]
pub(super) struct Left<'a> {
    pub(super) bytes: &'a [u8],
    pub(super) end: usize,
    pub(super) sizes: &'a Sizes,
}

impl<'a> Left<'a> {
    // Where the formula at the front lies, and what stands behind it.
    fn formula(self, section: Section) -> Result<(Span, Left<'a>), Fault>
        ensures same { IfOk result (λ c. IsLater self.entry c.1) }
        ensures is { cuts result ≡ due self.entry section }
    {
        let [high, low, body @ ..] = self.bytes else {
            return Err(Fault::Ended(section, self.end));
        };
        let len = usize::from(u16::from_be_bytes([*high, *low]));
        if len > LONGEST_FORMULA {
            return Err(Fault::TooLong(section, self.end.saturating_sub(self.bytes.len())));
        }
        let Some((code, rest)) = body.split_at_checked(len) else {
            return Err(Fault::Ended(section, self.end));
        };
        let at = self.end.saturating_sub(body.len());
        accept(code, at + len, self.sizes, section)?;
        Ok((
            Span { at, len },
            Left {
                bytes: rest,
                ..self
            },
        ))
    }

    // Where the reset formula of each clock lies, and what stands behind them.
    fn resets(self) -> Result<([Span; 4], Left<'a>), Fault>
        ensures same { IfOk result (λ g. IsLater self.entry g.1) }
        ensures is { gathered self.entry.sizes.now.clocks result ≡ resets_due self.entry }
    {
        let mut spans = [Span { at: 0, len: 0 }; 4];
        let mut left = self;
        'clocks: for span in &mut spans[..self.sizes.clocks as usize] {
            let (reset, rest) = left.formula(Section::Clocks)?;
            *span = reset;
            left = rest;
        }
        Ok((spans, left))
    }
}

// All formulas, and nothing behind them.
pub(super) fn read_sections(left: Left<'_>) -> Result<Model, Fault>
    ensures { layouts result ≡ all_due left.entry }
{
    let (resets, at_start) = left.resets()?;
    let (start, at_invariant) = at_start.formula(Section::Start)?;
    let (invariant, at_transition) = at_invariant.formula(Section::Invariant)?;
    let (transition, at_urgent) = at_transition.formula(Section::Transition)?;
    let (urgent, behind) = at_urgent.formula(Section::Urgent)?;
    if !behind.bytes.is_empty() {
        return Err(Fault::Trailing(left.end.saturating_sub(behind.bytes.len())));
    }
    Ok(Model {
        sizes: *left.sizes,
        resets,
        start,
        invariant,
        transition,
        urgent,
    })
}
