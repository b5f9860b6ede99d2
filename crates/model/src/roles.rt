// The section that a formula stands in.
ghost use Rattle.std.specs.Prelude.{◌≡◌};
ghost use Rattle.model.specs.Roles.{section_of};

use super::layout::Role;
use instruction::Section;

impl From<Role> for Section {
    ghost from_gives = { λ r s. s ≡ section_of r };

    fn from(role: Role) -> Section {
        match role {
            Role::Reset(_) => Section::Clocks,
            Role::Start => Section::Start,
            Role::Invariant => Section::Invariant,
            Role::Transition => Section::Transition,
            Role::Urgent => Section::Urgent,
        }
    }
}
