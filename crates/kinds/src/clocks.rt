// The trait of all places, whatever their clocks are made of.
ghost use Rattle.std.specs.Prelude.{◌≡◌, List};

use std::fmt;

// A place whose clocks can be shown one by one.
pub trait Clocked {
    type Clock: Copy + fmt::Display;

    ghost shown: { Self → List Self.Clock };

    // Its clocks, the first one first. Those past the declared ones are among them.
    fn clocks(&self) -> &[Self::Clock]
        ensures { result.now ≡ shown self.now };
}
