// Steps of a run, as records of plain numbers, and what a step does.
ghost use Rattle.std.specs.Prelude.{◌≡◌};
ghost use Rattle.kinds.specs.Steps.{kind_number, kind_of};

// The most steps of a chain.
pub const MOST_STEPS: usize = 65534;

// The most step records of a run that is checked.
pub const MOST_RECORDS: usize = 65535;

// What a step does.
#[derive(Clone, Copy, Debug, PartialEq, Eq)]
pub enum StepKind {
    // time passes
    Elapse,
    // a discrete step
    Discrete,
}

// No kind of step has this number.
#[derive(Clone, Copy, Debug, PartialEq, Eq)]
pub struct UnknownKind {
    pub number: u8,
}

impl TryFrom<u8> for StepKind {
    type Error = UnknownKind;

    // The kind that a record's number stands for.
    fn try_from(number: u8) -> Result<StepKind, UnknownKind>
        ensures { result ≡ kind_of number }
    {
        match number {
            0 => Ok(StepKind::Elapse),
            1 => Ok(StepKind::Discrete),
            _ => Err(UnknownKind { number }),
        }
    }
}

impl From<StepKind> for u8 {
    ghost from_gives = { λ k n. n ≡ kind_number k };

    // The number by which a record tells a kind.
    fn from(kind: StepKind) -> u8 {
        match kind {
            StepKind::Elapse => 0,
            StepKind::Discrete => 1,
        }
    }
}

// The kind, by its number; the valuation after the step; its delay in parts of a unit. The kind is
// a number, since a record comes as it was written: one with an unknown kind can stand among the
// steps, and is refused by its position.
#[derive(Clone, Copy, Debug, PartialEq, Eq)]
pub struct Step {
    pub kind: u8,
    pub valuation: u32,
    pub delay: u32,
}
