// Delays widened: every unit gets one part more, right after the present moment.
ghost use Rattle.std.specs.Prelude.{◌≡◌, ◌+◌, ◌-◌, ◌<◌, ◌≤◌};
ghost use Rattle.delays.specs.Pace.{fitting, stretched};
ghost use Rattle.delays.specs.Widens.{Widens};

use kinds::{MOST_RECORDS, Step};

// How many parts ago it is, after every unit up to now got one part more. Units without parts are
// left as they are.
fn stretched_by(before: u64, parts: u32) -> u64
    requires { before ≤ 562949953421312 }
    ensures { result ≡ stretched parts before }
{
    if parts == 0 {
        before
    } else {
        before + before / parts as u64
    }
}

// The delay of a step that ended so many parts ago.
fn widened_delay(before: u64, delay: u32, parts: u32) -> u32
    requires { before ≤ 281474976710656 }
    ensures short { delay < 4294967296 }
    ensures is { result ≡ fitting (stretched parts (before + delay) - stretched parts before) }
{
    let began = stretched_by(before + delay as u64, parts);
    let ended = stretched_by(before, parts);
    let wide = began - ended;
    wide.min(u32::MAX as u64) as u32
}

// Widens the delays of steps, the last of which ends at the present moment, where a unit has had so
// many parts.
pub fn widen(steps: &mut [Step], parts: u32)
    ensures { Widens steps.old parts steps.new }
{
    if steps.len() > MOST_RECORDS {
        return;
    }
    let mut before: u64 = 0;
    // by index: `iter_mut().rev()` was tried, and its proof knows nothing of what is written
    'steps: for i in (0..steps.len()).rev() {
        let delay = steps[i].delay;
        steps[i].delay = widened_delay(before, delay, parts);
        before += delay as u64;
    }
}
