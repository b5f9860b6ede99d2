// Places as text.
ghost use Rattle.std.specs.Prelude.{Some, decimal};
ghost use Rattle.std.specs.Fmt.{◌++?◌};
ghost use Rattle.kinds.specs.Texts.{each_after};

use std::fmt;

// A place by its valuation and its clocks, with a text before the valuation and one before each clock.
#[derive(Clone, Copy)]
pub struct Told<'a, C> {
    pub front: &'a str,
    pub valuation: u16,
    pub gap: &'a str,
    pub clocks: &'a [C],
}

impl<'a, C: Copy + fmt::Display> fmt::Display for Told<'a, C> {
    ghost output = { λ t. Some t.front.now ++? Some (decimal t.valuation) ++? each_after t.gap.now C.output t.clocks.now };

    fn fmt<W: fmt::Write>(&self, f: &mut fmt::Formatter<W>) -> fmt::Result {
        write!(f, "{}{}", self.front, self.valuation)?;
        for clock in self.clocks {
            write!(f, "{}{clock}", self.gap)?;
        }
        Ok(())
    }
}
