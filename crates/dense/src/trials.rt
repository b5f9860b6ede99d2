// What the trials of dense time are made of.
ghost use Rattle.std.specs.Prelude.{◌≡◌};
ghost use Rattle.regions.specs.Clocks.{four_of};
ghost use Rattle.tables.specs.Made.{made};
ghost use Rattle.dense.specs.Trials.{begun, making};

use super::kind::Dense;
use kinds::begun;
use model::Role;
use regions::{Clock, Place, elapse, reset};
use tables::{Setting, Trials, holds};

// Every declared clock at 0.
fn zeros(clocks: u8) -> [Clock; 4]
    ensures { result ≡ four_of (begun clocks) }
{
    begun(clocks, Clock::Counted { whole: 0, rank: 0 }, Clock::Over)
}

impl<'a> Trials for Dense<'a> {
    type Place = Place;

    ghost making = { λ k. making (made k.setting) };

    fn setting(&self) -> &Setting<'_> {
        &self.setting
    }

    fn origin(&self, valuation: u16) -> Place {
        let clocks = zeros(self.setting.pack.model.sizes.clocks);
        Place { valuation, clocks }
    }

    fn cleared(&self, place: Place, resets: [bool; 4], valuation: u16) -> Place {
        let clocks = reset(place.clocks, resets);
        Place { valuation, clocks }
    }

    fn standing(&self, place: Place) -> u16 {
        place.valuation
    }

    // Time passes until some clock stands otherwise.
    fn passes(&self, values: &[u8; 8], place: Place) -> Option<Place> {
        if holds(&self.setting.pack, Role::Urgent, values, &place) {
            return None;
        }
        let later = Place {
            clocks: elapse(place.clocks, self.setting.ceilings),
            ..place
        };
        holds(&self.setting.pack, Role::Invariant, values, &later).then_some(later)
    }
}
