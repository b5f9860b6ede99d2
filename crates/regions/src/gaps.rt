// Ranks without gaps, by a mask of the ranks in use.
ghost use Rattle.std.specs.Prelude.{◌≡◌, ◌<◌};
ghost use Rattle.regions.specs.Clocks.{at, bit_of, capped, four_of, mask_of, ones_to};
ghost use Rattle.regions.specs.Gaps.{Gapless};
ghost use Rattle.regions.specs.Regions.{renamed, tidy};

use super::clocks::Clock;

// How many ranks from 1 on are in use, up to the given one.
fn count_to(mask: u32, rank: u8) -> u8
    requires { rank < 32 }
    ensures { result ≡ ones_to mask rank }
{
    ((mask >> 1) & ((1 << rank) - 1)).count_ones() as u8
}

impl Clock {
    // The mask of its rank alone.
    fn bit(self) -> u32
        ensures { result ≡ bit_of self }
    {
        match self {
            Clock::Over => 0,
            Clock::Counted { rank, .. } => 1 << rank.min(31),
        }
    }

    // The clock with the number of ranks in use up to its own for a rank.
    fn closed(self, mask: u32) -> Clock
        ensures { result ≡ renamed (ones_to mask) (capped self) }
    {
        match self {
            Clock::Over => Clock::Over,
            Clock::Counted { whole, rank } => {
                Clock::Counted {
                    whole,
                    rank: count_to(mask, rank.min(31)),
                }
            }
        }
    }
}

// The ranks in use, a bit for each.
fn ranks(clocks: [Clock; 4]) -> u32
    ensures { result ≡ mask_of 4 (at clocks) }
{
    let mut mask = 0;
    'clocks: for clock in &clocks {
        mask |= clock.bit();
    }
    mask
}

// Each clock with the number of ranks in use up to its own for a rank.
fn closes(clocks: [Clock; 4], mask: u32) -> [Clock; 4]
    ensures { result ≡ four_of (λ c. renamed (ones_to mask) (capped (at clocks c))) }
{
    clocks.map(|clock| clock.closed(mask))
}

// Closes the gaps between the ranks in use.
pub(super) fn close_up(clocks: [Clock; 4]) -> [Clock; 4]
    ensures value { result ≡ four_of (tidy 4 (λ c. capped (at clocks c))) }
    ensures gapless { Gapless 4 (at result) }
{
    closes(clocks, ranks(clocks))
}
