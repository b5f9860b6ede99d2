// Ticked time as a kind of time.
ghost use Rattle.std.specs.Prelude.{◌≡◌};
ghost use Rattle.ceilings.specs.Ceilings.{Ceilings};
ghost use Rattle.model.specs.Reading.{layout};
ghost use Rattle.tables.specs.Made.{made};
ghost use Rattle.ticked.specs.Trials.{ticked, Ticking};

use super::places::{Place, same_places, slot_of};
use super::units::fill_units;
use kinds::{MOST_STEPS, Step, Time};
use model::Pack;
use tables::{Setting, moves, starts};

// A type of its own: what it says of chains is not what dense time, over the same record, says.
#[derive(Clone, Copy)]
pub struct Ticked<'a> {
    pub(super) setting: Setting<'a>,
}

impl<'a> Ticked<'a> {
    // Ticked time over a model and the bytes it was read from. A setting has its own ceilings; here they are
    // promised of the caller's record.
    pub fn of(pack: &Pack<'a>) -> Ticked<'a>
        ensures bytes { result.setting.pack.bytes.now ≡ pack.now.bytes.now }
        ensures model { result.setting.pack.model.now ≡ pack.now.model.now }
        ensures ceilings { Ceilings pack.now.bytes.now (layout pack.now.model.now) result.setting.ceilings }
        ensures ticking { Ticking (made result.setting) }
    {
        Ticked {
            setting: Setting::of(pack),
        }
    }
}

// Written out for each kind, by `starts` and `moves` where they are alike: one for every kind of trials would
// implement another crate's trait for a type parameter, which Rust does not allow.
impl<'a> Time for Ticked<'a> {
    ghost use Rattle.ticked.specs.Laws.{lawful_in};

    type Place = Place;

    ghost meaning = { λ k. ticked (made k.setting) };

    ghost lawful = { λ k. lawful_in k.setting.pack.bytes.now k.setting.pack.model.now k.setting.ceilings };

    fn start_trials(&self) -> u16 {
        self.setting.valuations()
    }

    fn step_trials(&self) -> u16 {
        self.setting.valuations() + 1
    }

    fn start(&self, trial: u16) -> Option<Place> {
        starts(self, trial)
    }

    fn step(&self, place: Place, trial: u16) -> Option<Place> {
        moves(self, place, trial)
    }

    fn elapses(&self, trial: u16) -> bool {
        trial == 0
    }

    fn same(&self, place: Place, other: Place) -> bool {
        same_places(place, other)
    }

    fn valuation(&self, place: Place) -> u16 {
        place.valuation
    }

    fn slot(&self, place: Place) -> u16 {
        slot_of(place)
    }

    fn delays(&self, _start: u16, steps: &mut [Step]) -> u32 {
        if steps.len() > MOST_STEPS {
            return 0;
        }
        fill_units(steps);
        1
    }
}
