// The part of the caller's record that holds a formula.
ghost use Rattle.std.specs.Prelude.{◌≡◌, take, drop};
ghost use Rattle.model.specs.Parts.{span_of};

use super::layout::{Model, Role, Span};

// The bytes of a formula, and the position of the first.
#[derive(Clone, Copy, Debug, PartialEq, Eq)]
pub struct Part<'a> {
    pub code: &'a [u8],
    pub at: usize,
}

// The bytes of a span, as far as the record has them.
pub(super) fn part_at<'a>(bytes: &'a [u8], span: Span) -> Part<'a>
    ensures bytes { result.code.now ≡ take span.len (drop span.at bytes.now) }
    ensures position { result.at ≡ span.at }
{
    let behind = bytes.get(span.at..).unwrap_or(&[]);
    Part {
        code: behind.get(..span.len).unwrap_or(behind),
        at: span.at,
    }
}

// Where the formula of a role lies; nothing for the reset of a clock that is not declared.
pub(super) fn span_of(model: &Model, role: Role) -> Option<Span>
    ensures { result ≡ span_of model.now role }
{
    match role {
        Role::Reset(clock) => {
            let declared = &model.resets[..model.sizes.clocks as usize];
            declared.get(clock as usize).copied()
        }
        Role::Start => Some(model.start),
        Role::Invariant => Some(model.invariant),
        Role::Transition => Some(model.transition),
        Role::Urgent => Some(model.urgent),
    }
}
