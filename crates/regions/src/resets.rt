// A discrete step sets clocks to 0.
ghost use Rattle.std.specs.Prelude.{◌≡◌};
ghost use Rattle.regions.specs.Clocks.{at, four_of, hit, restarted};
ghost use Rattle.regions.specs.Promise.{Cleared};

use super::clocks::Clock;
use super::gaps::close_up;
use kinds::restarted;

// The clocks that are reset are 0, and the rest are kept.
fn restarts(clocks: [Clock; 4], resets: [bool; 4]) -> [Clock; 4]
    ensures { result ≡ four_of (λ c. restarted (hit resets c) (at clocks c)) }
{
    restarted(clocks, resets, Clock::Counted { whole: 0, rank: 0 })
}

// The clocks after a discrete step: those that it resets are 0.
pub fn reset(clocks: [Clock; 4], resets: [bool; 4]) -> [Clock; 4]
    ensures { Cleared resets clocks result }
{
    let kept = restarts(clocks, resets);
    close_up(kept)
}
