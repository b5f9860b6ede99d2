// The trait of all kinds of time.
ghost use Rattle.std.specs.Prelude.{◌≡◌};
ghost use Rattle.kinds.specs.Steps.{Delayed};
ghost use Rattle.kinds.specs.Time.{Meaning, Lawful};

use super::steps::Step;

pub trait Time {
    type Place: Copy;

    ghost meaning: { Self → Meaning Self.Place };

    // How many start trials there are, from 0 on.
    fn start_trials(&self) -> u16
        ensures { result ≡ (meaning self.now).starts };

    // How many step trials there are from each place, from 0 on.
    fn step_trials(&self) -> u16
        ensures { result ≡ (meaning self.now).trials };

    // The place that a start trial gives.
    fn start(&self, trial: u16) -> Option<Self::Place>
        ensures { result ≡ (meaning self.now).start trial };

    // The place that a step trial gives from a place.
    fn step(&self, place: Self::Place, trial: u16) -> Option<Self::Place>
        ensures { result ≡ (meaning self.now).step place trial };

    // Whether time passes in a step trial. Otherwise it is a discrete step.
    fn elapses(&self, trial: u16) -> bool
        ensures { result ≡ (meaning self.now).elapses trial };

    fn same(&self, place: Self::Place, other: Self::Place) -> bool
        ensures { result ≡ (meaning self.now).same place other };

    fn valuation(&self, place: Self::Place) -> u16
        ensures { result ≡ (meaning self.now).valuation place };

    // A number by which a table of places spreads them.
    fn slot(&self, place: Self::Place) -> u16
        ensures { result ≡ (meaning self.now).slot place };

    // Fills the delays of a chain from a start trial into the records of its steps, and answers their
    // denominator. On entry the delay of each record is the number of its trial. A chain has at most
    // 65,534 steps; of more, none is changed and the answer is 0.
    fn delays(&self, start: u16, steps: &mut [Step]) -> u32
        ensures { Delayed (meaning self.now) start steps.old steps.new result };

    // The law of kinds of time.
    ghost lawful: { (k : Self) → Lawful (meaning k) };
}
