// One step of a run.
ghost use Rattle.std.specs.Prelude.{◌≡◌, ◌<◌, if◌then◌else◌, slice_index};
ghost use Rattle.judging.specs.Judging.{seen};
ghost use Rattle.model.specs.declared.layout.Role.TheVariants.{Reset};
ghost use Rattle.runs.specs.Courses.{size_of, table_of};
ghost use Rattle.runs.specs.Instants.{Room, sides_at};
ghost use Rattle.runs.specs.Runs.{four_of};
ghost use Rattle.runs.specs.Steps.{Next, state_of};
ghost use Rattle.tables.specs.Tables.{says_of};

use super::courses::Course;
use super::elapses::valid;
use super::moments::Moment;
use super::reached::Reached;
use super::waits::grown;
use judging::Seen;
use kinds::{Step, restarted};
use model::{Pack, Role};
use tables::{holds, resets, says};
use valuations::values;

// All clocks after a discrete step: judged by old variables, old clocks and next variables.
fn reset_clocks(pack: &Pack<'_>, shown: &Seen<'_, Moment>) -> [u64; 4]
    ensures { result ≡ four_of (λ k. (if says_of pack.now.bytes.now pack.now.model.now (Reset k) (seen shown.now.values.now shown.now.next.now (sides_at shown.now.reading.now.unit (λ c. slice_index shown.now.reading.now.clocks c))) then 0 else slice_index shown.now.reading.now.clocks k)) }
{
    restarted(shown.reading.clocks, resets(pack, shown), 0)
}

impl Course<'_> {
    // Time passes: urgent is false, and the invariant lasts over the whole delay.
    pub(super) fn elapsed(&self, at: Reached, step: Step) -> Option<Reached>
        requires room { Room 4294967296 at.clocks }
        requires elapses { step.kind ≡ 0 }
        ensures { Next (table_of self.now) self.now.unit (state_of at) step result }
    {
        if step.valuation != at.valuation as u32 {
            return None;
        }
        let values = values(&self.setting.pack.model.sizes, at.valuation);
        let moment = self.moment(at.clocks);
        if holds(&self.setting.pack, Role::Urgent, &values, &moment) {
            return None;
        }
        let delay = step.delay as u64;
        if !self.lasts(&values, at.clocks, delay) {
            return None;
        }
        let clocks = grown(at.clocks, delay);
        Some(Reached { clocks, ..at })
    }

    // A discrete step: the transition is allowed, and the new state is valid.
    pub(super) fn jumped(&self, at: Reached, step: Step) -> Option<Reached>
        requires within { step.valuation < size_of self.now }
        requires moves { step.kind ≡ 1 }
        requires still { step.delay ≡ 0 }
        ensures { Next (table_of self.now) self.now.unit (state_of at) step result }
    {
        let pack = self.setting.pack;
        let valuation = step.valuation as u16;
        let old = values(&pack.model.sizes, at.valuation);
        let new = values(&pack.model.sizes, valuation);
        let before = self.moment(at.clocks);
        let shown = Seen {
            reading: &before,
            values: &old,
            next: &new,
        };
        if !says(&pack, Role::Transition, &shown) {
            return None;
        }
        let clocks = reset_clocks(&pack, &shown);
        if !valid(&pack, &new, &self.moment(clocks)) {
            return None;
        }
        Some(Reached { valuation, clocks })
    }
}
