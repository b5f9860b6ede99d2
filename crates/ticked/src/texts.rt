// Clocks as text, and the clocks of a place one by one.
ghost use Rattle.std.specs.Prelude.{Some};
ghost use Rattle.ticked.specs.Texts.{ticks_text};

use super::places::{Place, Ticks};
use kinds::Clocked;
use std::fmt;

impl fmt::Display for Ticks {
    ghost output = { λ t. Some (ticks_text t) };

    // `over`, or the whole number.
    fn fmt<W: fmt::Write>(&self, f: &mut fmt::Formatter<W>) -> fmt::Result {
        match *self {
            Ticks::Over => write!(f, "over"),
            Ticks::At(whole) => write!(f, "{whole}"),
        }
    }
}

impl Clocked for Place {
    type Clock = Ticks;

    ghost shown = { λ p. p.clocks };

    fn clocks(&self) -> &[Ticks] {
        &self.clocks
    }
}
