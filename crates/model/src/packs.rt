// A record together with what was read from it.
ghost use Rattle.std.specs.Prelude.{◌≡◌};
ghost use Rattle.model.specs.Parts.{span_of, held, contents};

use super::layout::{Model, Role};
use super::parts::{Part, part_at, span_of};

impl Model {
    // The formula of a role in the record that the model was read from; nothing for the reset of a
    // clock that is not declared. Of another record, what that one has at the same place. It is for callers
    // who have no pack.
    pub fn formula<'a>(&self, bytes: &'a [u8], role: Role) -> Option<Part<'a>>
        ensures { contents result ≡ held bytes.now (span_of self.now role) }
    {
        let span = span_of(self, role)?;
        Some(part_at(bytes, span))
    }
}

// A record with the model that was read from it. Calls that look at a formula are lent both.
#[derive(Clone, Copy, Debug)]
pub struct Pack<'a> {
    pub bytes: &'a [u8],
    pub model: &'a Model,
}

impl<'a> Pack<'a> {
    // The same of the record and the model that it has.
    pub fn formula(&self, role: Role) -> Option<Part<'a>>
        ensures { contents result ≡ held self.now.bytes.now (span_of self.now.model.now role) }
    {
        self.model.formula(self.bytes, role)
    }
}
