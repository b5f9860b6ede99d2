// The setting of a record, and what it counts.
ghost use Rattle.std.specs.Prelude.{◌≡◌, cond, Some, None, nat_lt};
ghost use Rattle.instruction.specs.Sizes.{product};
ghost use Rattle.valuations.specs.Radix.{padded};
ghost use Rattle.tables.specs.Made.{made};

use super::settings::Setting;
use ceilings::ceilings;
use model::Pack;
use valuations::{valuations, values};

impl<'a> Setting<'a> {
    // That of a model and the bytes it was read from.
    pub fn of(pack: &Pack<'a>) -> Setting<'a>
        ensures { result.pack ≡ pack.now }
    {
        Setting {
            pack: *pack,
            ceilings: ceilings(pack),
        }
    }

    // How many valuations there are.
    pub fn valuations(&self) -> u16
        ensures { result ≡ product (made self.now).table.counts }
    {
        valuations(&self.pack.model.sizes)
    }

    // The value of each variable in a valuation; nothing of a number that is none.
    pub fn values(&self, valuation: u16) -> Option<[u8; 8]>
        ensures { result ≡ cond (nat_lt valuation (product (made self.now).table.counts)) (Some (padded (made self.now).table.counts valuation)) None }
    {
        // by `if`: `then_some` would work the values out of a number that is none too
        if valuation < self.valuations() {
            Some(values(&self.pack.model.sizes, valuation))
        } else {
            None
        }
    }
}
