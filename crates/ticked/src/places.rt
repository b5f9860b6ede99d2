// Places of ticked time.
ghost use Rattle.std.specs.Prelude.{◌≡◌};
ghost use Rattle.ticked.specs.Ticks.{code, same_place, slot_of};

// A clock: a whole number up to its ceiling, or over. No Option: a clock that is over has a number,
// above its ceiling, and reads as above each constant up to it. None would say that it has none.
#[derive(Clone, Copy, Debug, PartialEq, Eq)]
pub enum Ticks {
    Over,
    At(u16),
}

// A clock that is not declared is over. Dense time has a struct like it: one struct over the make of clock
// would hold an array of a type parameter, which the kit does not allow.
#[derive(Clone, Copy, Debug, PartialEq, Eq)]
pub struct Place {
    pub valuation: u16,
    pub clocks: [Ticks; 4],
}

impl Ticks {
    // Its part of the slot number of a place.
    fn code(self) -> u32
        ensures { result ≡ code self }
    {
        match self {
            Ticks::Over => 0,
            Ticks::At(whole) => whole as u32 + 1,
        }
    }
}

// Two places are the same if all their parts are equal.
pub(super) fn same_places(place: Place, other: Place) -> bool
    ensures { result ≡ same_place place other }
{
    place == other
}

// A number by which a table of places spreads them.
pub(super) fn slot_of(place: Place) -> u16
    ensures { result ≡ slot_of place }
{
    kinds::slot_of(place.valuation, place.clocks.map(|clock| clock.code()))
}
