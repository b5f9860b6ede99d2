// Ceilings of the clocks.
//
// A clock's ceiling is the largest constant that it is compared with in the
// invariant, the transition formula and the reset formulas, or 0. Above its
// ceiling no formula can tell two values of a clock apart.
#![tactic(auto)]

ghost use Rattle.std.specs.Prelude.{◌≡◌, MatchOption};
ghost use Rattle.model.specs.Parts.{span_of};
ghost use Rattle.model.specs.Reading.{layout};
ghost use Rattle.ceilings.specs.Ceilings.{Ceilings, ceiling_at, height_at, peak};

use formula::highest;
use model::{Pack, Role};
use std::array;

// The largest constant that a clock is compared with in the formula of a role; 0 where there is
// no such formula.
fn height_of(pack: &Pack<'_>, role: Role, clock: u8) -> u16
    ensures { MatchOption (span_of pack.now.model.now role) (result ≡ 0) (λ p. result ≡ height_at pack.now.bytes.now (layout pack.now.model.now) clock p) }
{
    pack.formula(role)
        .map_or(0, |part| highest(part.code, &pack.model.sizes, clock))
}

// The same in all reset formulas.
fn height_of_resets(pack: &Pack<'_>, clock: u8) -> u16
    ensures { result ≡ peak pack.now.bytes.now (layout pack.now.model.now) clock (layout pack.now.model.now).resets }
{
    (0..pack.model.sizes.clocks)
        .map(|reset| height_of(pack, Role::Reset(reset), clock))
        .max()
        .unwrap_or(0)
}

fn ceiling_of(pack: &Pack<'_>, clock: u8) -> u16
    ensures { result ≡ ceiling_at pack.now.bytes.now (layout pack.now.model.now) clock }
{
    let invariant = height_of(pack, Role::Invariant, clock);
    let transition = height_of(pack, Role::Transition, clock);
    let resets = height_of_resets(pack, clock);
    invariant.max(transition.max(resets))
}

// The ceiling of each clock of a model that was read from these bytes; 0 for a clock that is not
// declared. Of other bytes, the same of what lies at the places that the model names.
pub fn ceilings(pack: &Pack<'_>) -> [u16; 4]
    ensures { Ceilings pack.now.bytes.now (layout pack.now.model.now) result }
{
    array::from_fn(|clock| ceiling_of(pack, clock as u8))
}
