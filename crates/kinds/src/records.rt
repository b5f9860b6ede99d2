// Records of the steps of a chain.
ghost use Rattle.std.specs.Prelude.{◌≡◌};
ghost use Rattle.kinds.specs.Steps.{tried_as};

use super::steps::{Step, StepKind};
use super::time::Time;

// The step that a trial gives into a place, with the number of the trial for a delay: what the delays of
// a chain are filled by.
pub fn tried<K: Time>(kind: &K, place: K::Place, trial: u16) -> Step
    ensures { result ≡ tried_as (K.meaning kind.now) place trial }
{
    let step = if kind.elapses(trial) {
        StepKind::Elapse
    } else {
        StepKind::Discrete
    };
    Step {
        kind: step.into(),
        valuation: u32::from(kind.valuation(place)),
        delay: u32::from(trial),
    }
}
