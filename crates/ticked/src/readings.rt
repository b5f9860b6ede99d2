// The reading of a ticked place, at a whole moment or half a unit later. A clock that the place has not
// counts as over.
ghost use Rattle.std.specs.Prelude.{◌≡◌, false};
ghost use Rattle.ticked.specs.Ticks.{at, side_of};

use super::places::{Place, Ticks};
use judging::{Reading, Side};
use kinds::clock_or;
use std::cmp::Ordering;

// The clocks of a place, and whether half a unit has passed since.
#[derive(Clone, Copy, Debug, PartialEq, Eq)]
pub struct Moment {
    pub clocks: [Ticks; 4],
    pub half: bool,
}

impl Ticks {
    // Where it stands to a constant, or its number and a half. Dense time has a function like it: each
    // reads its own clock, and `cmp` is what they share.
    fn side(self, half: bool, constant: u16) -> Side
        ensures { result ≡ side_of half self constant }
    {
        match self {
            Ticks::Over => Side::Above,
            Ticks::At(whole) => {
                match whole.cmp(&constant) {
                    Ordering::Less => Side::Below,
                    Ordering::Equal if !half => Side::At,
                    _ => Side::Above,
                }
            }
        }
    }
}

// A place, at its whole moment.
impl Reading for Place {
    ghost use Rattle.ticked.specs.Laws.{place_ordered};

    ghost side = { λ p c j. side_of false (at p.clocks c) j };

    fn side_of(&self, clock: u8, constant: u16) -> Side {
        clock_or(self.clocks, clock, Ticks::Over).side(false, constant)
    }

    ghost ordered = { place_ordered };
}

impl Reading for Moment {
    ghost use Rattle.ticked.specs.Laws.{moment_ordered};

    ghost side = { λ s c j. side_of s.half (at s.clocks c) j };

    fn side_of(&self, clock: u8, constant: u16) -> Side {
        clock_or(self.clocks, clock, Ticks::Over).side(self.half, constant)
    }

    ghost ordered = { moment_ordered };
}
