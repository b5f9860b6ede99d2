// Trials in a kind of time: the places that they give, and the delays of the chains that they make.
use super::answers::{Answer, said};
use super::cases::Tale;
use super::failures::Failure;
use super::steps::Run;
use kinds::{Clocked, Step, Time, tried};
use model::Pack;
use std::alloc::Global;

// A question that holds everywhere.
const TRUE: &[u8] = b"t";

// A kind of time over a record.
#[derive(Clone, Copy)]
pub(super) struct Timed<'a, K> {
    pub heap: Global,
    pub pack: &'a Pack<'a>,
    pub kind: &'a K,
}

// The numbers of trials, with single blanks between them.
fn trials_of(heap: Global, text: &str) -> Result<Vec<u16>, Failure> {
    let mut trials = Vec::new(heap);
    for word in text.split(' ') {
        trials.push(word.parse::<u16>()?)?;
    }
    Ok(trials)
}

impl<'a, K: Time> Timed<'a, K>
where
    K::Place: Clocked,
{
    // Says what a trial gave: the valuation, and behind commas the declared clocks. A clock is `over`, or a
    // whole part and a rank with a dot between them, in ticked time a whole number.
    fn say_given(&self, answer: &mut Answer, given: Option<K::Place>) {
        let Some(place) = given else {
            // the blank goes with the word, so where no memory is left neither is said
            let nothing = if answer.is_empty() {
                "nothing"
            } else {
                " nothing"
            };
            answer.add(nothing);
            return;
        };
        answer.say(self.kind.valuation(place));
        let declared = self.pack.model.sizes.clocks as usize;
        for clock in place.clocks().iter().take(declared) {
            answer.list(*clock);
        }
    }

    // What each trial gives, from the place that was reached last; a start trial as long as there is
    // none.
    fn places(&self, trials: &[u16]) -> Answer {
        let mut answer = Answer::new(self.heap);
        let mut at = None;
        for trial in trials {
            let given = match &at {
                Some(place) => self.kind.step(*place, *trial),
                None => self.kind.start(*trial),
            };
            self.say_given(&mut answer, given);
            at = given.or(at);
        }
        answer
    }

    // The steps of a chain from a place.
    fn steps(&self, from: K::Place, trials: &[u16]) -> Result<Vec<Step>, Failure> {
        let mut steps = Vec::new(self.heap);
        let mut at = from;
        for trial in trials {
            at = self.kind.step(at, *trial).ok_or(Failure::NoCase)?;
            steps.push(tried(self.kind, at, *trial))?;
        }
        Ok(steps)
    }

    // A chain with its denominator and its delays.
    fn chain(&self, trials: &[u16]) -> Result<Run, Failure> {
        let (start, rest) = trials.split_first().ok_or(Failure::NoCase)?;
        let from = self.kind.start(*start).ok_or(Failure::NoCase)?;
        let mut steps = self.steps(from, rest)?;
        let parts = self.kind.delays(*start, steps.as_mut_slice());
        Ok(Run {
            start: *start as u32,
            parts,
            steps,
        })
    }

    // The denominator of a chain, the delays of these of its steps, and whether it is a run; where it is
    // refused, its refusal with no blank before it.
    fn timing(&self, chain: &Run, steps: &[Step]) -> Answer {
        let mut answer = said(self.heap, chain.parts);
        for step in steps {
            answer.say(step.delay);
        }
        // as above, the blank goes with the word
        match chain.reaches(self.pack, TRUE) {
            Ok(true) => answer.add(" yes"),
            Ok(false) => answer.add(" no"),
            Err(fault) => answer.refuse(fault.into()),
        }
        answer
    }

    pub(super) fn told(&self, tale: Tale, text: &str) -> Result<Answer, Failure> {
        let trials = trials_of(self.heap, text)?;
        let trials = trials.as_slice();
        match tale {
            Tale::Places => Ok(self.places(trials)),
            Tale::Delays => {
                let chain = self.chain(trials)?;
                Ok(self.timing(&chain, chain.steps.as_slice()))
            }
            Tale::Denominator => Ok(self.timing(&self.chain(trials)?, &[])),
        }
    }
}
