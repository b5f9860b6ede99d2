// What becomes of the clocks of a ticked place.
ghost use Rattle.std.specs.Prelude.{◌≡◌, ◌<◌, cond};
ghost use Rattle.ticked.specs.declared.places.Ticks.TheVariants.{Over, At};
ghost use Rattle.ticked.specs.Ticks.{at, four_of, begun, cleared, hit, later, limit};

use super::places::Ticks;
use kinds::{begun, restarted};
use std::array;

// Every declared clock at 0.
pub(super) fn zeros(clocks: u8) -> [Ticks; 4]
    ensures { result ≡ four_of (begun clocks) }
{
    begun(clocks, Ticks::At(0), Ticks::Over)
}

impl Ticks {
    // One unit later.
    fn grown(self, ceiling: u16) -> Ticks
        ensures { result ≡ later ceiling self }
    {
        match self {
            Ticks::At(whole) if whole < ceiling => Ticks::At(whole + 1),
            _ => Ticks::Over,
        }
    }
}

// All clocks one unit later.
pub(super) fn elapse(clocks: [Ticks; 4], ceilings: [u16; 4]) -> [Ticks; 4]
    ensures { result ≡ four_of (λ c. later (limit ceilings c) (at clocks c)) }
{
    array::from_fn(|c| clocks[c].grown(ceilings[c]))
}

// The clocks that are reset are 0.
pub(super) fn reset(clocks: [Ticks; 4], resets: [bool; 4]) -> [Ticks; 4]
    ensures { result ≡ four_of (λ c. cleared (hit resets c) (at clocks c)) }
{
    restarted(clocks, resets, Ticks::At(0))
}
