// Walks by hand: a start trial, and then step trials, each from the place that was reached.
use super::failures::Failure;
use super::texts::{Trials, Walk, walk_of};
use kinds::{Clocked, Step, StepKind, Time, Told, tried};
use std::io;

// A kind of time to walk in, where so many clocks are declared.
#[derive(Clone, Copy)]
pub(super) struct Walker<'a, K> {
    pub rt: &'a HostRuntime,
    pub kind: &'a K,
    pub clocks: u8,
}

impl<'a, K: Time> Walker<'a, K>
where
    K::Place: Clocked,
{
    // Prints what a trial gave: `place V`, and then a word for each declared clock.
    fn print(&self, given: Option<K::Place>) -> io::Result<()> {
        let Some(place) = given else {
            return self.rt.println("nothing");
        };
        // what is told borrows the clocks that it is cut to, so no function can hand it out
        let clocks = place.clocks();
        let declared = clocks.len().min(self.clocks as usize);
        self.rt.println(Told {
            front: "place ",
            valuation: self.kind.valuation(place),
            gap: " ",
            clocks: &clocks[..declared],
        })
    }

    // Walks from a place, prints what each trial gives, and adds the steps that were taken. After
    // nothing the walk goes on from the place before.
    fn walk_from(
        &self,
        from: Option<K::Place>,
        trials: &[u16],
        steps: &mut Vec<Step>,
    ) -> Result<(), Failure> {
        let mut at = from;
        for trial in trials {
            let given = at.and_then(|place| self.kind.step(place, *trial));
            self.print(given)?;
            if let Some(place) = &given {
                steps.push(tried(self.kind, *place, *trial))?;
                at = given;
            }
        }
        Ok(())
    }

    // Prints how long the steps of a walk may take: the parts of a unit, and the delay of each step in
    // which time passes.
    fn print_delays(&self, start: u16, steps: &mut [Step]) -> io::Result<()> {
        let parts = self.kind.delays(start, steps);
        println!(self.rt; "denominator {parts}")?;
        for step in steps {
            if StepKind::try_from(step.kind) == Ok(StepKind::Elapse) {
                println!(self.rt; "delay {}", step.delay)?;
            }
        }
        Ok(())
    }

    // Room for the steps is made before the first line is printed, so that a failure prints none.
    fn walk_all(&self, walk: &Walk) -> Result<(), Failure> {
        let mut steps = Vec::with_capacity(self.rt.alloc(), walk.trials.len())?;
        let from = self.kind.start(walk.start);
        self.print(from)?;
        self.walk_from(from, walk.trials.as_slice(), &mut steps)?;
        if from.is_some() {
            self.print_delays(walk.start, steps.as_mut_slice())?;
        }
        Ok(())
    }

    // Walks the trials of a text.
    pub(super) fn walk(&self, text: &str) -> Result<(), Failure> {
        let most = Trials {
            starts: self.kind.start_trials(),
            steps: self.kind.step_trials(),
        };
        let walk = walk_of(self.rt.alloc(), text, most)?;
        self.walk_all(&walk)
    }
}
