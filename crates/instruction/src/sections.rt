// The sections of a record, and the question that is put to it.
ghost use Rattle.std.specs.Prelude.{◌≡◌};
ghost use Rattle.instruction.specs.Faults.{section_number};
ghost use Rattle.instruction.specs.Marks.{next_allowed, clocks_allowed};

#[derive(Clone, Copy, Debug, PartialEq, Eq)]
pub enum Section {
    Variables,
    Clocks,
    Start,
    Invariant,
    Transition,
    Urgent,
    Question,
}

impl Section {
    // Whether its formulas may speak of next values.
    pub(super) fn has_next(self) -> bool
        ensures { result ≡ next_allowed self }
    {
        matches!(self, Section::Clocks | Section::Transition)
    }

    // Whether its formulas may speak of clocks.
    pub(super) fn has_clocks(self) -> bool
        ensures { result ≡ clocks_allowed self }
    {
        matches!(
            self,
            Section::Clocks | Section::Invariant | Section::Transition
        )
    }
}

// The number that answers have.
impl From<Section> for u8 {
    ghost from_gives = { λ s n. n ≡ section_number s };

    fn from(section: Section) -> u8 {
        match section {
            Section::Variables => 1,
            Section::Clocks => 2,
            Section::Start => 3,
            Section::Invariant => 4,
            Section::Transition => 5,
            Section::Urgent => 6,
            Section::Question => 7,
        }
    }
}
