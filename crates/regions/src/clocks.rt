// A clock of a dense place.
ghost use Rattle.std.specs.Prelude.{◌≡◌};
ghost use Rattle.regions.specs.Regions.{rank_of, sharp};

// No Option: a clock that is over has a value, above its ceiling, and reads as above each constant up
// to it. None would say that it has none.
#[derive(Clone, Copy, Debug, PartialEq, Eq)]
pub enum Clock {
    // Above its ceiling.
    Over,
    // Its whole part, and where its fraction stands among those of the other clocks.
    Counted { whole: u16, rank: u8 },
}

impl Clock {
    // Whether it is on a whole number.
    pub(super) fn is_sharp(self) -> bool
        ensures { result ≡ sharp self }
    {
        matches!(self, Clock::Counted { rank: 0, .. })
    }

    // A clock that is over has no rank, which counts as 0.
    pub(super) fn rank(self) -> u8
        ensures { result ≡ rank_of self }
    {
        match self {
            Clock::Over => 0,
            Clock::Counted { rank, .. } => rank,
        }
    }
}
