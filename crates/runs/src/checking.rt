// The run check.
ghost use Rattle.std.specs.Prelude.{◌≡◌, ◌<◌, ◌≤◌, true, length, slice_index};
ghost use Rattle.instruction.specs.Counts.{value_counts};
ghost use Rattle.instruction.specs.Sizes.{product};
ghost use Rattle.judging.specs.Judging.{seen};
ghost use Rattle.runs.specs.Checks.{Checks, fine, numbered, stepping};
ghost use Rattle.runs.specs.Courses.{model_of, size_of, table_of};
ghost use Rattle.runs.specs.Instants.{Room, Tells, sides_at};
ghost use Rattle.runs.specs.Runs.{Begins, Leads, first};
ghost use Rattle.runs.specs.Steps.{Next, state_of};
ghost use Rattle.tables.specs.Tables.{asked, table_in};
ghost use Rattle.valuations.specs.Radix.{padded};

use super::courses::Course;
use super::moments::Moment;
use super::reached::Reached;
use instruction::Fault;
use judging::{Seen, judge};
use kinds::{MOST_RECORDS, Step, StepKind};
use model::{Pack, Role, read_question};
use tables::{Setting, holds};
use valuations::{valuations, values};

// The largest denominator.
const MOST_PARTS: u32 = 65535;

// Whether its kind is known, a discrete one has no delay, and its valuation is one.
fn is_fine(step: Step, valuations: u16) -> bool
    ensures { result ≡ fine valuations step }
{
    let is_kind = match StepKind::try_from(step.kind) {
        Ok(StepKind::Elapse) => true,
        Ok(StepKind::Discrete) => step.delay == 0,
        Err(_) => false,
    };
    is_kind && step.valuation < u32::from(valuations)
}

// The first step that is not is refused.
fn check_steps(steps: &[Step], valuations: u16) -> Result<(), Fault>
    ensures { result ≡ stepping valuations 0 steps.now }
{
    'steps: for (i, step) in steps.iter().enumerate() {
        if !is_fine(*step, valuations) {
            return Err(Fault::RunNumbers(i));
        }
    }
    Ok(())
}

// Whether a run's numbers are in range. They come apart, as in the one public call that begins with this: a
// struct of them would be made there only to be taken apart.
fn are_numbered(valuations: u16, start: u32, parts: u32, steps: &[Step]) -> bool
    ensures { result ≡ numbered valuations start parts steps.now }
{
    parts >= 1
        && parts <= MOST_PARTS
        && start < u32::from(valuations)
        && steps.len() <= MOST_RECORDS
}

// Whether a run begins in a valuation, all clocks at 0. It asks for no ceiling: where no run begins none is
// looked for.
fn begins(pack: &Pack<'_>, start: u16, unit: u32) -> bool
    requires some { 1 ≤ unit }
    requires within { start < product (value_counts pack.now.model.now.sizes) }
    ensures { Tells result (Begins (table_in pack.now.bytes.now pack.now.model.now) unit start) }
{
    let values = values(&pack.model.sizes, start);
    let moment = Moment {
        clocks: [0; 4],
        unit,
    };
    // one `&&` over a moment of its own make: a function for it would be no plainer
    holds(pack, Role::Start, &values, &moment) && holds(pack, Role::Invariant, &values, &moment)
}

impl Course<'_> {
    fn next_state(&self, at: Reached, step: Step) -> Option<Reached>
        requires room { Room 4294967296 at.clocks }
        requires fine { fine (size_of self.now) step ≡ true }
        ensures short { step.delay < 4294967296 }
        ensures is { Next (table_of self.now) self.now.unit (state_of at) step result }
    {
        // it is read, so that it is known to fit
        let _delay = step.delay;
        match StepKind::try_from(step.kind) {
            Ok(StepKind::Elapse) => self.elapsed(at, step),
            Ok(StepKind::Discrete) => self.jumped(at, step),
            Err(_) => None,
        }
    }

    // Whether the question holds where the run has got to.
    fn asks(&self, question: &[u8], at: Reached) -> bool
        ensures { result ≡ asked question.now (model_of self.now) (seen (padded (value_counts (model_of self.now).sizes) at.valuation) (padded (value_counts (model_of self.now).sizes) at.valuation) (sides_at self.now.unit (λ c. slice_index at.clocks c))) }
    {
        let sizes = &self.setting.pack.model.sizes;
        let values = values(sizes, at.valuation);
        let moment = self.moment(at.clocks);
        let shown = Seen {
            reading: &moment,
            values: &values,
            next: &values,
        };
        judge(question, sizes, &shown)
    }

    // Whether the steps lead from where the run begins to a state in which the question holds.
    fn follows(&self, question: &[u8], start: u16, steps: &[Step]) -> bool
        requires short { length steps.now ≤ 65535 }
        requires sound { stepping (size_of self.now) 0 steps.now ≡ Ok tt }
        ensures { Tells result (Leads (table_of self.now) (asked question.now (model_of self.now)) self.now.unit (first start) steps.now) }
    {
        let mut at = Reached {
            valuation: start,
            clocks: [0; 4],
        };
        'steps: for step in steps {
            let Some(next) = self.next_state(at, *step) else {
                return false;
            };
            at = next;
        }
        self.asks(question, at)
    }
}

// Whether these steps are a run, in parts of which `parts` make a unit, from the start valuation to a
// state in which the question holds. A bad question is refused first, then numbers out of range.
pub fn check_run(
    pack: &Pack<'_>,
    question: &[u8],
    start: u32,
    parts: u32,
    steps: &[Step],
) -> Result<bool, Fault>
    ensures { Checks pack.now.bytes.now pack.now.model.now question.now start parts steps.now result }
{
    read_question(question, &pack.model.sizes)?;
    let valuations = valuations(&pack.model.sizes);
    if !are_numbered(valuations, start, parts, steps) {
        return Err(Fault::RunNumbers(0));
    }
    check_steps(steps, valuations)?;
    if !begins(pack, start as u16, parts) {
        return Ok(false);
    }
    let course = Course {
        setting: Setting::of(pack),
        unit: parts,
    };
    Ok(course.follows(question, start as u16, steps))
}
