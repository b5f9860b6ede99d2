// Kinds of time whose chains are exactly the runs.
//
// What is said of finitely many places is true of every timing there is: in
// dense time a chain reaches a question exactly when some run does, whatever
// fractions its delays are, and in ticked time exactly when a run with whole
// delays does. The delays that a kind of time gives to a chain make such a
// run, with a state in each of the chain's places.
#![tactic(auto)]

ghost use Rattle.std.specs.Prelude.{◌≡◌};
ghost use Rattle.ceilings.specs.Ceilings.{Ceilings};
ghost use Rattle.model.specs.Reading.{layout};
ghost use Rattle.timings.specs.Theorems.{DenseIsExact, DenseRuns, TickedIsExact, TickedRuns'};

use dense::Dense;
use model::Pack;
use ticked::Ticked;

// Dense time over a model and the bytes it was read from.
pub fn dense_time<'a>(pack: &Pack<'a>) -> Dense<'a>
    ensures bytes { result.setting.pack.bytes.now ≡ pack.now.bytes.now }
    ensures model { result.setting.pack.model.now ≡ pack.now.model.now }
    ensures ceilings { Ceilings pack.now.bytes.now (layout pack.now.model.now) result.setting.ceilings }
    ensures exact { DenseIsExact pack.now.bytes.now pack.now.model.now result.setting.ceilings }
    ensures runs { DenseRuns pack.now.bytes.now pack.now.model.now result.setting.ceilings }
{
    Dense::of(pack)
}

// Ticked time over a model and the bytes it was read from.
pub fn ticked_time<'a>(pack: &Pack<'a>) -> Ticked<'a>
    ensures bytes { result.setting.pack.bytes.now ≡ pack.now.bytes.now }
    ensures model { result.setting.pack.model.now ≡ pack.now.model.now }
    ensures ceilings { Ceilings pack.now.bytes.now (layout pack.now.model.now) result.setting.ceilings }
    ensures exact { TickedIsExact pack.now.bytes.now pack.now.model.now result.setting.ceilings }
    ensures runs { TickedRuns' pack.now.bytes.now pack.now.model.now result.setting.ceilings }
{
    Ticked::of(pack)
}
