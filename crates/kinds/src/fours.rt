// Four clocks of any make.
ghost use Rattle.std.specs.Prelude.{◌≡◌, ◌<◌, false, cond, nat_lt, slice_index_or};
ghost use Rattle.kinds.specs.Fours.{four};

use std::array;

// The first ones as those that begin, and the others as those that are over.
pub fn begun<C: Copy>(clocks: u8, zero: C, over: C) -> [C; 4]
    ensures { result ≡ four (λ c. cond (nat_lt c clocks) zero over) }
{
    array::from_fn(|c| if c < clocks as usize { zero } else { over })
}

// Those that are reset as those that begin.
pub fn restarted<C: Copy>(clocks: [C; 4], resets: [bool; 4], zero: C) -> [C; 4]
    ensures { result ≡ four (λ c. cond (slice_index_or resets c false) zero (slice_index_or clocks c zero)) }
{
    array::from_fn(
        |c: usize| -> C
            requires { c < 4 }
            ensures { result ≡ cond (slice_index_or resets c false) zero (slice_index_or clocks c zero) }
        { if resets[c] { zero } else { clocks[c] } },
    )
}

// The clock of a number. One that is not there counts as the one that is given for it.
pub fn clock_or<C: Copy>(clocks: [C; 4], clock: u8, over: C) -> C
    ensures { result ≡ slice_index_or clocks clock over }
{
    clocks.get(clock as usize).copied().unwrap_or(over)
}
