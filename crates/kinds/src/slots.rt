// Slot numbers: the parts of a place, mixed into one number.
ghost use Rattle.std.specs.Prelude.{◌≡◌};
ghost use Rattle.kinds.specs.Slots.{mixing, slotted};

// An odd number near 2^32 divided by the golden ratio, so that neighbours come to lie far apart.
const SPREAD: u32 = 2654435769;

// One more part mixed into what was made of those before it. The upper half of the bits depends on
// all of them.
pub fn mixed(sum: u32, part: u32) -> u32
    ensures { result ≡ mixing sum part }
{
    sum.wrapping_add(part).wrapping_mul(SPREAD)
}

// The upper half of what a valuation and the codes of four clocks are mixed into, one after the other.
pub fn slot_of(valuation: u16, codes: [u32; 4]) -> u16
    ensures { result ≡ slotted valuation codes }
{
    // A loop: of a fold over the codes the check does not find the result by itself.
    let mut sum = mixed(0, valuation as u32);
    for code in codes {
        sum = mixed(sum, code);
    }
    (sum >> 16) as u16
}
