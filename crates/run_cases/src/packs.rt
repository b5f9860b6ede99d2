// Runs in the sample packs.
use super::records::{GRIPPER, PULSE, WINDOW};
use super::tried::{Row, check_runs};
use std::test::Fail;

// One step, after time 0 and before time 1.
const IN_WINDOW: [Row; 20] = [
    (b"v\x00\x01", "0 2, 0 0 1, 1 1 0", Ok(true)),
    (b"v\x00\x01", "0 1, 0 0 1, 1 1 0", Ok(false)),
    (b"v\x00\x01", "0 1, 1 1 0", Ok(false)),
    (b"v\x00\x01", "0 2, 0 0 0, 1 1 0", Ok(false)),
    (b"v\x00\x01", "0 2, 0 0 1, 0 0 0, 1 1 0", Ok(true)),
    (b"v\x00\x01", "0 65535, 0 0 1, 1 1 0", Ok(true)),
    (b"v\x00\x01", "0 65535, 0 0 65534, 1 1 0", Ok(true)),
    (b"v\x00\x01", "0 65535, 0 0 65535, 1 1 0", Ok(false)),
    (b"v\x00\x01", "0 3, 0 0 1, 0 0 1, 1 1 0", Ok(true)),
    (b"v\x00\x01", "0 3, 0 0 1, 0 0 2, 1 1 0", Ok(false)),
    (b"v\x00\x00", "0 2, 0 0 1, 1 1 0", Ok(false)),
    (b"t", "0 2, 0 0 1, 1 1 0, 1 1 0", Ok(false)),
    (b"t", "0 2, 0 0 1, 1 1 0, 1 0 0", Ok(false)),
    // no steps
    (b"v\x00\x00", "0 1", Ok(true)),
    (b"v\x00\x01", "0 1", Ok(false)),
    (b"v\x00\x01", "1 1", Ok(false)),
    // long delays
    (b"v\x00\x00", "0 65535, 0 0 4000000000", Ok(true)),
    (b"v\x00\x01", "0 2, 0 0 1, 1 1 0, 0 1 4000000000", Ok(true)),
    (b"t", "0 65535, 0 0 4000000000, 1 1 0", Ok(false)),
    // a delay that names another valuation
    (b"t", "0 2, 0 1 1", Ok(false)),
];

// A pulse lasts exactly three units.
const OF_PULSES: [Row; 15] = [
    (b"v\x00\x01", "0 1, 1 1 0", Ok(true)),
    (b"v\x00\x01", "0 1, 1 1 0, 0 1 3", Ok(true)),
    (b"t", "0 1, 1 1 0, 0 1 4", Ok(false)),
    (b"t", "0 2, 1 1 0, 0 1 7", Ok(false)),
    (b"t", "0 1, 1 1 0, 0 1 4000000000", Ok(false)),
    (b"v\x00\x00", "0 1, 1 1 0, 0 1 3, 1 0 0", Ok(true)),
    (b"v\x00\x01", "0 1, 1 1 0, 0 1 3, 1 0 0", Ok(false)),
    (b"t", "0 1, 1 1 0, 0 1 2, 1 0 0", Ok(false)),
    (b"t", "0 2, 1 1 0, 0 1 5, 1 0 0", Ok(false)),
    (b"v\x00\x00", "0 3, 1 1 0, 0 1 8, 0 1 1, 1 0 0", Ok(true)),
    // the clock is reset at each rise
    (
        b"v\x00\x00",
        "0 1, 0 0 4000000000, 1 1 0, 0 1 3, 1 0 0",
        Ok(true),
    ),
    (
        b"v\x00\x01",
        "0 1, 1 1 0, 0 1 3, 1 0 0, 0 0 9, 1 1 0, 0 1 3",
        Ok(true),
    ),
    (b"t", "0 1, 1 1 0, 0 1 3, 1 0 0, 1 1 0, 1 0 0", Ok(false)),
    // neither a rise nor a fall
    (b"t", "0 1, 1 0 0", Ok(false)),
    (b"t", "0 1, 1 1 0, 1 1 0", Ok(false)),
];

// With phases a and b and reservation r the valuation is (5 a + b) 3 + r.
const OF_GRIPPERS: [Row; 12] = [
    // A asks, waits and holds
    (
        b"v\x00\x03",
        "0 1, 1 15 0, 1 31 0, 0 31 3, 1 46 0",
        Ok(true),
    ),
    (
        b"v\x00\x03",
        "0 1, 1 15 0, 1 31 0, 0 31 2, 1 46 0",
        Ok(false),
    ),
    (
        b"v\x00\x03",
        "0 2, 1 15 0, 1 31 0, 0 31 5, 1 46 0",
        Ok(true),
    ),
    (
        b"v\x00\x03",
        "0 1, 1 15 0, 0 15 2, 1 31 0, 0 31 5, 1 46 0",
        Ok(true),
    ),
    (b"t", "0 1, 1 15 0, 0 15 3", Ok(false)),
    (b"t", "0 1, 1 15 0, 1 31 0, 0 31 6", Ok(false)),
    // and releases at once
    (
        b"v\x00\x00v\x02\x00&",
        "0 1, 1 15 0, 1 31 0, 0 31 3, 1 46 0, 0 46 8, 1 61 0, 1 0 0, 0 0 7",
        Ok(true),
    ),
    (
        b"t",
        "0 1, 1 15 0, 1 31 0, 0 31 3, 1 46 0, 0 46 3, 1 61 0, 0 61 0",
        Ok(false),
    ),
    (
        b"t",
        "0 1, 1 15 0, 1 31 0, 0 31 3, 1 46 0, 0 46 9",
        Ok(false),
    ),
    // both ask, and B writes its name last
    (
        b"v\x01\x03",
        "0 1, 1 15 0, 1 18 0, 1 34 0, 1 38 0, 0 38 3, 1 41 0",
        Ok(true),
    ),
    (
        b"t",
        "0 1, 1 15 0, 1 18 0, 1 34 0, 1 38 0, 0 38 3, 1 53 0",
        Ok(false),
    ),
    (
        b"v\x00\x00v\x01\x02&",
        "0 1, 1 15 0, 1 18 0, 1 34 0, 1 38 0, 0 38 3, 1 8 0",
        Ok(true),
    ),
];

#[test]
fn window(rt: HostRuntime) -> Result<(), Fail> {
    check_runs(&rt, WINDOW, &IN_WINDOW)
}

#[test]
fn pulse(rt: HostRuntime) -> Result<(), Fail> {
    check_runs(&rt, PULSE, &OF_PULSES)
}

#[test]
fn gripper(rt: HostRuntime) -> Result<(), Fail> {
    check_runs(&rt, GRIPPER, &OF_GRIPPERS)
}
