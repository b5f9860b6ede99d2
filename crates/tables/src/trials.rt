// The trials: a place, or nothing, whatever places are made of.
ghost use Rattle.std.specs.Prelude.{◌≡◌};
ghost use Rattle.tables.specs.Made.{made};
ghost use Rattle.tables.specs.Trials.{Making, beginning, entering, starting, stepping};

use super::formulas::{holds, resets, says};
use super::settings::Setting;
use judging::{Reading, Seen};
use model::Role;
use valuations::values;

// A kind of time whose trials are judged by the formulas of a record.
pub trait Trials {
    type Place: Copy + Reading;

    ghost making: { Self → Making Self.Place };

    // The record, and what of it the kind is made of.
    fn setting(&self) -> &Setting<'_>
        ensures { made result.now ≡ (making self.now).setting };

    // A valuation with all clocks at 0.
    fn origin(&self, valuation: u16) -> Self::Place
        ensures { result ≡ (making self.now).origin valuation };

    // The place in a valuation after a discrete step that resets these clocks.
    fn cleared(&self, place: Self::Place, resets: [bool; 4], valuation: u16) -> Self::Place
        ensures { result ≡ (making self.now).cleared resets place valuation };

    // The valuation of a place.
    fn standing(&self, place: Self::Place) -> u16
        ensures { result ≡ (making self.now).standing place };

    // Time passes, where the variables have these values.
    fn passes(&self, values: &[u8; 8], place: Self::Place) -> Option<Self::Place>
        ensures { result ≡ (making self.now).passing values.now place };
}

// A valuation with all clocks 0, if it begins a run. Never inlined, so that a trial that there is not ends before
// room is made for what a place needs.
#[inline(never)]
fn begins<T: Trials>(time: &T, values: &[u8; 8], valuation: u16) -> Option<T::Place>
    ensures { result ≡ beginning T.Place.side (T.making time.now) values.now valuation }
{
    let setting = time.setting();
    let origin = time.origin(valuation);
    let begins = holds(&setting.pack, Role::Start, values, &origin)
        && holds(&setting.pack, Role::Invariant, values, &origin);
    begins.then_some(origin)
}

// The discrete step into a valuation.
fn enters<T: Trials>(
    time: &T,
    values: &[u8; 8],
    next: &[u8; 8],
    place: T::Place,
    valuation: u16,
) -> Option<T::Place>
    ensures { result ≡ entering T.Place.side (T.making time.now) values.now next.now place valuation }
{
    let setting = time.setting();
    let shown = Seen {
        reading: &place,
        values,
        next,
    };
    if !says(&setting.pack, Role::Transition, &shown) {
        return None;
    }
    let entered = time.cleared(place, resets(&setting.pack, &shown), valuation);
    holds(&setting.pack, Role::Invariant, next, &entered).then_some(entered)
}

// The place that a start trial gives: trial i begins in valuation i.
pub fn starts<T: Trials>(time: &T, trial: u16) -> Option<T::Place>
    ensures { result ≡ starting T.Place.side (T.making time.now) trial }
{
    let values = time.setting().values(trial)?;
    begins(time, &values, trial)
}

// The place that a step trial gives: in trial 0 time passes, each other one is a discrete step.
pub fn moves<T: Trials>(time: &T, place: T::Place, trial: u16) -> Option<T::Place>
    ensures { result ≡ stepping T.Place.side (T.making time.now) place trial }
{
    let setting = time.setting();
    let values = values(&setting.pack.model.sizes, time.standing(place));
    let Some(valuation) = trial.checked_sub(1) else {
        return time.passes(&values, place);
    };
    let next = setting.values(valuation)?;
    enters(time, &values, &next, place, valuation)
}
