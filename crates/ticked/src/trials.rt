// What the trials of ticked time are made of.
ghost use Rattle.std.specs.Prelude.{◌≡◌};
ghost use Rattle.tables.specs.Made.{made};
ghost use Rattle.ticked.specs.Trials.{making};

use super::clocks::{elapse, reset, zeros};
use super::kind::Ticked;
use super::places::Place;
use super::readings::Moment;
use model::Role;
use tables::{Setting, Trials, holds};

impl<'a> Trials for Ticked<'a> {
    type Place = Place;

    ghost making = { λ k. making (made k.setting) };

    fn setting(&self) -> &Setting<'_> {
        &self.setting
    }

    fn origin(&self, valuation: u16) -> Place {
        let clocks = zeros(self.setting.pack.model.sizes.clocks);
        Place { valuation, clocks }
    }

    fn cleared(&self, place: Place, resets: [bool; 4], valuation: u16) -> Place {
        let clocks = reset(place.clocks, resets);
        Place { valuation, clocks }
    }

    fn standing(&self, place: Place) -> u16 {
        place.valuation
    }

    // One unit passes.
    fn passes(&self, values: &[u8; 8], place: Place) -> Option<Place> {
        if holds(&self.setting.pack, Role::Urgent, values, &place) {
            return None;
        }
        let clocks = place.clocks;
        let halfway = Moment { clocks, half: true };
        let end = Place {
            clocks: elapse(clocks, self.setting.ceilings),
            ..place
        };
        let passes = holds(&self.setting.pack, Role::Invariant, values, &halfway)
            && holds(&self.setting.pack, Role::Invariant, values, &end);
        passes.then_some(end)
    }
}
