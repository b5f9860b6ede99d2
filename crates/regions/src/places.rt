// Dense places: their reading, their sameness and their slot numbers.
ghost use Rattle.std.specs.Prelude.{◌≡◌};
ghost use Rattle.regions.specs.Clocks.{at};
ghost use Rattle.regions.specs.Promise.{Tells};
ghost use Rattle.regions.specs.Regions.{side_of};
ghost use Rattle.regions.specs.Slots.{code, slot_of};
ghost use Rattle.regions.specs.Laws.{place_ordered};

use super::clocks::Clock;
use judging::{Reading, Side};
use kinds::clock_or;
use std::cmp::Ordering;

// The number of a valuation, and the clocks. Ticked time has a struct like it: one struct over the make of
// clock would hold an array of a type parameter, which the kit does not allow.
#[derive(Clone, Copy, Debug, PartialEq, Eq)]
pub struct Place {
    pub valuation: u16,
    pub clocks: [Clock; 4],
}

impl Clock {
    // Where it stands to a constant. Ticked time has a function like it: each reads its own clock, and
    // `cmp` is what they share.
    fn side(self, constant: u16) -> Side
        ensures { result ≡ side_of self constant }
    {
        match self {
            Clock::Over => Side::Above,
            Clock::Counted { whole, rank } => {
                match whole.cmp(&constant) {
                    Ordering::Less => Side::Below,
                    Ordering::Equal if rank == 0 => Side::At,
                    _ => Side::Above,
                }
            }
        }
    }

    // Its part of the slot number of a place.
    fn code(self) -> u32
        ensures { result ≡ code self }
    {
        match self {
            Clock::Over => 7,
            Clock::Counted { whole, rank } => whole as u32 * 8 + rank as u32,
        }
    }
}

impl Reading for Place {
    ghost side = { λ p c j. side_of (at p.clocks c) j };

    // A clock that the place has not counts as over.
    fn side_of(&self, clock: u8, constant: u16) -> Side {
        clock_or(self.clocks, clock, Clock::Over).side(constant)
    }

    ghost ordered = { place_ordered };
}

impl Place {
    // Whether it is the other place.
    pub fn same(self, other: Place) -> bool
        ensures { Tells self other result }
    {
        self == other
    }

    // A number by which a table of places spreads them.
    pub fn slot(self) -> u16
        ensures { result ≡ slot_of self }
    {
        kinds::slot_of(self.valuation, self.clocks.map(|clock| clock.code()))
    }
}
