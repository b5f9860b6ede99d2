// Every moment of a delay, by the few at which a formula can change.
//
// Between two whole numbers that some clock meets, up to its ceiling, every
// clock stays on the same side of every constant. So it is enough to look half
// a part after such a moment, and at the next one.
ghost use Rattle.std.specs.Prelude.{◌≡◌, ◌+◌, ◌*◌, ◌^◌, ◌<◌, ◌≤◌, slice_index};
ghost use Rattle.runs.specs.Runs.{four_of};
ghost use Rattle.runs.specs.Instants.{Every4, Soon, Soonest, Room};

use super::moments::Moment;
use std::array;

// Parts to the next whole number, if that is up to the ceiling; else more than any delay.
fn next_whole(clock: u64, unit: u32, ceiling: u16) -> u64
    requires { 1 ≤ unit }
    ensures some { 1 ≤ result }
    ensures soon { Soon clock unit ceiling result }
{
    let unit = unit as u64;
    if clock / unit < ceiling as u64 {
        unit - clock % unit
    } else {
        u64::MAX
    }
}

// The same of each clock.
fn next_wholes(moment: &Moment, ceilings: [u16; 4]) -> [u64; 4]
    ensures some { Every4 (λ c. 1 ≤ slice_index result c) }
    ensures soon { Every4 (λ c. Soon (slice_index moment.now.clocks c) moment.now.unit (slice_index ceilings c) (slice_index result c)) }
{
    array::from_fn(|c| next_whole(moment.clocks[c], moment.unit, ceilings[c]))
}

// Parts until some clock meets a whole number up to its ceiling.
pub(super) fn soonest(moment: &Moment, ceilings: [u16; 4]) -> u64
    ensures { Soonest moment.now.unit moment.now.clocks ceilings result }
{
    let mut least = u64::MAX;
    'waits: for wait in next_wholes(moment, ceilings) {
        least = least.min(wait);
    }
    least
}

// All clocks `by` parts later.
pub(super) fn grown(clocks: [u64; 4], by: u64) -> [u64; 4]
    requires { Room by clocks }
    ensures { result ≡ four_of (λ c. slice_index clocks c + by) }
{
    // `map` was tried: the proof that each sum fits did not close
    array::from_fn(|c| clocks[c] + by)
}

// All clocks half a part later, in half parts.
pub(super) fn just_after(clocks: [u64; 4]) -> [u64; 4]
    requires { Room 0 clocks }
    ensures { result ≡ four_of (λ c. 2 * slice_index clocks c + 1) }
{
    // `map` was tried: the proof that each number fits did not close
    array::from_fn(|c| 2 * clocks[c] + 1)
}
