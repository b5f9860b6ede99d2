// Time passes until some clock stands otherwise to whole numbers.
ghost use Rattle.std.specs.Prelude.{◌≡◌, ◌<◌};
ghost use Rattle.regions.specs.Clocks.{at, Every, Fit, four_of, limit, trim_all, trimmed, whole_of};
ghost use Rattle.regions.specs.Promise.{Elapsed};
ghost use Rattle.regions.specs.Regions.{any_sharp, highest, lift, rank_of, roll};

use super::clocks::Clock;
use super::gaps::close_up;
use std::array;
use std::cmp::Ordering;

impl Clock {
    // The clock as it can occur under a ceiling.
    fn trim(self, ceiling: u16) -> Clock
        ensures value { result ≡ trimmed ceiling self }
        ensures fit { Fit result }
    {
        match self {
            Clock::Over => Clock::Over,
            Clock::Counted { whole, rank } => {
                match whole.cmp(&ceiling) {
                    Ordering::Less => {
                        Clock::Counted {
                            whole,
                            rank: rank.min(15),
                        }
                    }
                    Ordering::Equal if rank == 0 => self,
                    _ => Clock::Over,
                }
            }
        }
    }

    // On a whole number it leaves it, and is then the lowest of the others.
    fn lifted(self, ceiling: u16) -> Clock
        requires { rank_of self < 255 }
        ensures { result ≡ lift ceiling self }
    {
        match self {
            Clock::Over => Clock::Over,
            Clock::Counted { whole, rank: 0 } => {
                if whole == ceiling {
                    Clock::Over
                } else {
                    Clock::Counted { whole, rank: 1 }
                }
            }
            Clock::Counted { whole, rank } => {
                Clock::Counted {
                    whole,
                    rank: rank + 1,
                }
            }
        }
    }

    // With the highest rank it comes to its next whole number.
    fn rolled(self, top: u8) -> Clock
        requires { whole_of self < 65535 }
        ensures { result ≡ roll top self }
    {
        match self {
            Clock::Counted { whole, rank } if rank == top => {
                Clock::Counted {
                    whole: whole + 1,
                    rank: 0,
                }
            }
            _ => self,
        }
    }
}

// All clocks as they can occur under their ceilings.
fn trims(clocks: [Clock; 4], ceilings: [u16; 4]) -> [Clock; 4]
    ensures value { result ≡ four_of (trim_all ceilings clocks) }
    ensures fit { Every Fit result }
{
    array::from_fn(|c| clocks[c].trim(ceilings[c]))
}

// Whether some clock is on a whole number.
#[tactic(auto, unfolding(crate::specs::Regions::any_sharp))]
pub fn some_sharp(clocks: [Clock; 4]) -> bool
    ensures { result ≡ any_sharp 4 (at clocks) }
{
    clocks.iter().any(|clock| clock.is_sharp())
}

// The highest rank of a clock.
#[tactic(auto, unfolding(crate::specs::Regions::highest))]
fn top_rank(clocks: [Clock; 4]) -> u8
    ensures { result ≡ highest 4 (at clocks) }
{
    clocks
        .map(|clock| clock.rank())
        .into_iter()
        .max()
        .unwrap_or(0)
}

// The clocks on whole numbers leave them.
fn lifts(clocks: [Clock; 4], ceilings: [u16; 4]) -> [Clock; 4]
    requires { Every (λ p. rank_of p < 255) clocks }
    ensures { result ≡ four_of (λ c. lift (limit ceilings c) (at clocks c)) }
{
    array::from_fn(|c| clocks[c].lifted(ceilings[c]))
}

// The clocks with the highest rank come to their next whole numbers.
fn rolls(clocks: [Clock; 4], top: u8) -> [Clock; 4]
    requires { Every (λ p. whole_of p < 65535) clocks }
    ensures { result ≡ four_of (λ c. roll top (at clocks c)) }
{
    // By index: `map` was tried, and the check does not see that each clock it hands on is one of the four.
    array::from_fn(|c| clocks[c].rolled(top))
}

// The clocks after the least time that changes how they stand to whole numbers.
pub fn elapse(clocks: [Clock; 4], ceilings: [u16; 4]) -> [Clock; 4]
    ensures { Elapsed ceilings clocks result }
{
    let fit = trims(clocks, ceilings);
    if some_sharp(fit) {
        close_up(lifts(fit, ceilings))
    } else {
        close_up(rolls(fit, top_rank(fit)))
    }
}
