// The delays of a chain, filled into the records of its steps.
ghost use Rattle.std.specs.Prelude.{◌≡◌, ℕ, ◌+◌, ◌<◌, ◌≤◌, false, not, [], ◌∷◌, ◌++◌, reverse, length, take, drop, Some, None, ◌==◌, slice_index, slice_index_or};
ghost use Rattle.delays.specs.Pace.{wait_of, parts_after, fractions_after, delays_after};
ghost use Rattle.kinds.specs.Steps.{redelayed, trials_of};
ghost use Rattle.regions.specs.Regions.{rank_of};
ghost use Rattle.tables.specs.Made.{made};
ghost use Rattle.dense.specs.Delays.{passing_of, ranked, timing, trying};
ghost use Rattle.dense.specs.Trials.{stepping};

use super::kind::Dense;
use delays::{Pace, Passing, widen};
use kinds::{Step, Time};
use regions::{Clock, Place, some_sharp};

// How time passes in a trial from a place.
fn passing_of(place: Place, trial: u32) -> Passing
    ensures { result ≡ passing_of trial place }
{
    if trial > 0 {
        return Passing::Still;
    }
    if some_sharp(place.clocks) {
        Passing::Leaving
    } else {
        Passing::Meeting
    }
}

fn has_fraction(clock: Clock) -> bool
    ensures { result ≡ not (rank_of clock == 0) }
{
    match clock {
        Clock::Over => false,
        Clock::Counted { rank, .. } => rank != 0,
    }
}

// Which clocks of a place have a fraction.
fn fractions_in(place: Place) -> [bool; 4]
    ensures { result ≡ ranked place 0 ∷ ranked place 1 ∷ ranked place 2 ∷ ranked place 3 ∷ [] }
{
    place.clocks.map(|clock| has_fraction(clock))
}

// Step i waits as time passes in it; where clocks leave their whole numbers the steps before it are
// widened. The answer is the moment after it.
fn advance(steps: &mut [Step], i: usize, pace: Pace, passing: Passing, ranked: [bool; 4]) -> Pace
    requires place { i < length steps.old }
    requires short { i ≤ 65535 }
    requires few { pace.parts ≤ 65535 }
    requires fractions { (c : ℕ) → slice_index pace.fractions c ≤ pace.parts }
    requires delays { (k : ℕ) → slice_index (trials_of (take i steps.old)) k ≤ pace.parts }
    ensures parts { result.parts ≡ parts_after passing pace.parts }
    ensures fractions { result.fractions ≡ fractions_after (λ c. slice_index_or ranked c false) (wait_of passing pace.parts pace.fractions) pace.fractions }
    ensures steps { steps.new ≡ redelayed (take (i + 1) steps.old) (reverse (delays_after passing pace.parts (wait_of passing pace.parts pace.fractions) (trials_of (take i steps.old)))) ++ drop (i + 1) steps.old }
{
    let wait = pace.wait(passing);
    if let Passing::Leaving = passing {
        widen(&mut steps[0..i], pace.parts);
    }
    steps[i].delay = wait;
    pace.after(passing, ranked)
}

// Step i, of this trial, leads from one place to the next; where there is none it does not wait.
fn attempt(
    steps: &mut [Step],
    i: usize,
    pace: Pace,
    trial: u32,
    at: Option<Place>,
    next: Option<Place>,
) -> Pace
    requires place { i < length steps.old }
    requires short { i ≤ 65535 }
    requires few { pace.parts ≤ 65535 }
    requires fractions { (c : ℕ) → slice_index pace.fractions c ≤ pace.parts }
    requires delays { (k : ℕ) → slice_index (trials_of (take i steps.old)) k ≤ pace.parts }
    ensures parts { result.parts ≡ (trying (λ _ _. next) trial at (record { place = at; parts = pace.parts; fractions = pace.fractions; delays = trials_of (take i steps.old) })).parts }
    ensures fractions { result.fractions ≡ (trying (λ _ _. next) trial at (record { place = at; parts = pace.parts; fractions = pace.fractions; delays = trials_of (take i steps.old) })).fractions }
    ensures steps { steps.new ≡ redelayed (take (i + 1) steps.old) (reverse (trying (λ _ _. next) trial at (record { place = at; parts = pace.parts; fractions = pace.fractions; delays = trials_of (take i steps.old) })).delays) ++ drop (i + 1) steps.old }
{
    let (Some(place), Some(later)) = (at, next) else {
        steps[i].delay = 0;
        return pace;
    };
    advance(
        steps,
        i,
        pace,
        passing_of(place, trial),
        fractions_in(later),
    )
}

impl Dense<'_> {
    // The place that a trial gives; nothing from nothing.
    fn onward(&self, at: Option<Place>, trial: u32) -> Option<Place>
        ensures nowhere { at ≡ None → result ≡ None }
        ensures place { (p : Place) → at ≡ Some p → result ≡ stepping (made self.now.setting) p trial }
    {
        let place = at?;
        let trial = u16::try_from(trial).ok()?;
        self.step(place, trial)
    }

    // Fills the delays of a chain from a place by the trials that the steps have for delays.
    pub(super) fn fill(&self, first: Option<Place>, steps: &mut [Step]) -> u32
        requires { length steps.old ≤ 65534 }
        ensures parts { result ≡ (timing (λ _. first) (stepping (made self.now.setting)) 0 (trials_of steps.old)).parts }
        ensures steps { steps.new ≡ redelayed steps.old (reverse (timing (λ _. first) (stepping (made self.now.setting)) 0 (trials_of steps.old)).delays) }
    {
        let mut at = first;
        let mut pace = Pace {
            parts: 1,
            fractions: [0; 4],
        };
        // by index: a step is lent together with all those before it, which it may widen
        'steps: for i in 0..steps.len() {
            let trial = steps[i].delay;
            let next = self.onward(at, trial);
            pace = attempt(steps, i, pace, trial, at, next);
            at = next;
        }
        pace.parts
    }
}
