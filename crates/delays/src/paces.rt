// The present moment: how many parts a unit has, and the fractions of the clocks.
ghost use Rattle.std.specs.Prelude.{◌≡◌, false, map, slice_index_or};
ghost use Rattle.delays.specs.Pace.{fitting, fraction_after, fractions_after, highest, parts_after, wait_of};

use std::array;

// How time passes in a step.
#[derive(Clone, Copy, Debug, PartialEq, Eq)]
pub enum Passing {
    // not at all
    Still,
    // clocks on whole numbers leave them
    Leaving,
    // the clocks with the highest fraction come to their next whole numbers
    Meeting,
}

// How many parts a unit has, and the fraction of each clock in parts.
#[derive(Clone, Copy, Debug, PartialEq, Eq)]
pub struct Pace {
    pub parts: u32,
    pub fractions: [u32; 4],
}

// The fraction of one clock after a wait, if it then has one.
fn fraction(ranked: bool, wait: u32, f: u32) -> u32
    ensures { result ≡ fitting (fraction_after ranked wait f) }
{
    if ranked { f.saturating_add(wait) } else { 0 }
}

// The highest of the fractions.
fn top(fractions: [u32; 4]) -> u32
    ensures { result ≡ highest fractions }
{
    fractions.into_iter().max().unwrap_or(0)
}

impl Pace {
    // How many parts the next step waits.
    pub fn wait(self, passing: Passing) -> u32
        ensures { result ≡ wait_of passing self.parts self.fractions }
    {
        match passing {
            Passing::Still => 0,
            Passing::Leaving => 1,
            Passing::Meeting => self.parts.saturating_sub(top(self.fractions)),
        }
    }

    // The moment after a step. Of each clock it is told whether it then has a fraction.
    pub fn after(self, passing: Passing, ranked: [bool; 4]) -> Pace
        ensures parts { result.parts ≡ fitting (parts_after passing self.parts) }
        ensures fractions { result.fractions ≡ map fitting (fractions_after (λ c. slice_index_or ranked c false) (wait_of passing self.parts self.fractions) self.fractions) }
    {
        let wait = self.wait(passing);
        let parts = match passing {
            Passing::Leaving => self.parts.saturating_add(1),
            Passing::Still | Passing::Meeting => self.parts,
        };
        let fractions = array::from_fn(|c| fraction(ranked[c], wait, self.fractions[c]));
        Pace { parts, fractions }
    }
}
