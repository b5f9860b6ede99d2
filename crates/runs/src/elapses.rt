// Elapse steps: whether the invariant lasts over a whole delay.
ghost use Rattle.std.specs.Prelude.{◌≡◌, slice_index};
ghost use Rattle.tables.specs.Tables.{lasting};
ghost use Rattle.runs.specs.Courses.{lasting_in};
ghost use Rattle.runs.specs.Instants.{Always, Room, Tells, sides_at};

use super::courses::Course;
use super::moments::Moment;
use super::waits::{grown, just_after, soonest};
use model::{Pack, Role};
use tables::holds;

// Whether the invariant holds at a moment.
pub(super) fn valid(pack: &Pack<'_>, values: &[u8; 8], moment: &Moment) -> bool
    ensures { result ≡ lasting pack.now.bytes.now pack.now.model.now values.now (sides_at moment.now.unit (λ c. slice_index moment.now.clocks c)) }
{
    holds(pack, Role::Invariant, values, moment)
}

impl Course<'_> {
    // Whether the invariant holds at every moment after more than 0 and up to `delay` parts.
    pub(super) fn lasts(&self, values: &[u8; 8], mut clocks: [u64; 4], mut delay: u64) -> bool
        requires { Room delay clocks }
        ensures { Tells result (Always (lasting_in self.now values.now) self.now.unit (λ c. slice_index clocks c) delay) }
    {
        let pack = self.setting.pack;
        'events: while delay > 0 {
            let after = Moment {
                clocks: just_after(clocks),
                unit: 2 * self.unit,
            };
            if !valid(&pack, values, &after) {
                return false;
            }
            let wait = soonest(&self.moment(clocks), self.setting.ceilings);
            if wait > delay {
                return true;
            }
            let then = grown(clocks, wait);
            let met = self.moment(then);
            if !valid(&pack, values, &met) {
                return false;
            }
            clocks = then;
            delay -= wait;
        }
        true
    }
}
