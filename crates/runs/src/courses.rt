// What the steps of a run are judged by.
ghost use Rattle.std.specs.Prelude.{◌≡◌, ◌≤◌};

use super::moments::Moment;
use tables::Setting;

// A record with the ceilings of its clocks, and how many parts make a unit.
#[derive(Clone, Copy)]
pub(super) struct Course<'a> {
    pub(super) setting: Setting<'a>,
    pub(super) unit: u32,
    ghost some: { 1 ≤ unit },
    ghost few: { unit ≤ 65535 },
}

impl Course<'_> {
    // The moment at which the clocks stand so.
    pub(super) fn moment(&self, clocks: [u64; 4]) -> Moment
        ensures { result ≡ record { clocks = clocks; unit = self.now.unit; some = self.now.some } }
    {
        Moment {
            clocks,
            unit: self.unit,
        }
    }
}
