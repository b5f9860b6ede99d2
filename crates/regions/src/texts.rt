// Clocks as text, and the clocks of a place one by one.
ghost use Rattle.std.specs.Prelude.{Some};
ghost use Rattle.regions.specs.Texts.{clock_text};

use super::clocks::Clock;
use super::places::Place;
use kinds::Clocked;
use std::fmt;

impl fmt::Display for Clock {
    ghost output = { λ c. Some (clock_text c) };

    // `over`, or the whole part and the rank with a dot between them.
    fn fmt<W: fmt::Write>(&self, f: &mut fmt::Formatter<W>) -> fmt::Result {
        match *self {
            Clock::Over => write!(f, "over"),
            Clock::Counted { whole, rank } => write!(f, "{whole}.{rank}"),
        }
    }
}

impl Clocked for Place {
    type Clock = Clock;

    ghost shown = { λ p. p.clocks };

    fn clocks(&self) -> &[Clock] {
        &self.clocks
    }
}
