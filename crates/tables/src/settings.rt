// What a kind of time is made of.
ghost use Rattle.ceilings.specs.Ceilings.{Ceilings};
ghost use Rattle.model.specs.Reading.{layout};

use model::Pack;

// A record with its model, and the ceilings of its clocks.
#[derive(Clone, Copy)]
pub struct Setting<'a> {
    pub pack: Pack<'a>,
    pub ceilings: [u16; 4],
    ghost heights: { Ceilings pack.bytes.now (layout pack.model.now) ceilings },
}
