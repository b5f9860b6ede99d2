// Delays in ticked time: a unit for each step in which time passes.
ghost use Rattle.std.specs.Prelude.{◌≡◌, map};
ghost use Rattle.ticked.specs.Trials.{in_units};

use kinds::Step;

// A record whose delay is the number of its trial, with the delay of that trial.
fn unit(step: Step) -> Step
    ensures { result ≡ in_units step }
{
    Step {
        delay: if step.delay == 0 { 1 } else { 0 },
        ..step
    }
}

// Gives each record the delay of its trial.
pub(super) fn fill_units(steps: &mut [Step])
    ensures { steps.new ≡ map in_units steps.old }
{
    'steps: for step in steps.iter_mut() {
        *step = unit(*step);
    }
}
