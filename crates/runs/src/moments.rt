// A moment of a run as a reading: clocks in parts of a unit.
ghost use Rattle.std.specs.Prelude.{◌≡◌, ◌*◌, ◌≤◌, slice_index};
ghost use Rattle.judging.specs.Truth.{compared};

use judging::{Reading, Side};

#[derive(Clone, Copy)]
pub struct Moment {
    pub clocks: [u64; 4],
    pub unit: u32,
    ghost some: { 1 ≤ unit },
}

// Where a number of parts stands to another.
fn compare(x: u64, y: u64) -> Side
    ensures { result ≡ compared x y }
{
    x.cmp(&y).into()
}

impl Reading for Moment {
    ghost use Rattle.runs.specs.Sides.{moment_ordered};

    ghost side = { λ s c j. compared (slice_index s.clocks c) (j * s.unit) };

    fn side_of(&self, clock: u8, constant: u16) -> Side {
        let parts = self.clocks.get(clock as usize).copied().unwrap_or(0);
        compare(parts, u64::from(constant) * u64::from(self.unit))
    }

    ghost ordered = { moment_ordered };
}
