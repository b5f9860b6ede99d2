// Delays: every moment of one counts, and none of a delay of 0.
use super::records::{BARE, EDGE, FOUR, HOLE, LATE, LONG, POINT, RUSH, STILL, TWO};
use super::tried::{Row, check_runs};
use std::test::Fail;

const AT_HOLE: [Row; 26] = [
    // up to exactly 1, and past it
    (b"t", "0 1", Ok(true)),
    (b"t", "0 1, 0 0 1", Ok(true)),
    (b"t", "0 2, 0 0 2", Ok(true)),
    (b"t", "0 2, 0 0 3", Ok(false)),
    (b"t", "0 65535, 0 0 65534", Ok(true)),
    (b"t", "0 65535, 0 0 65535", Ok(true)),
    (b"t", "0 65535, 0 0 65536", Ok(false)),
    // across, with both ends valid
    (b"t", "0 1, 0 0 2", Ok(false)),
    (b"t", "0 1, 0 0 3", Ok(false)),
    (b"t", "0 1, 0 0 4000000000", Ok(false)),
    (b"t", "0 65535, 0 0 4000000000", Ok(false)),
    (b"t", "0 1, 0 0 1, 0 0 1", Ok(false)),
    // by a fraction
    (b"t", "0 10, 0 0 9, 0 0 1", Ok(true)),
    (b"t", "0 10, 0 0 9, 0 0 2", Ok(false)),
    (b"t", "0 10, 0 0 9, 0 0 11", Ok(false)),
    (b"t", "0 10, 0 0 9, 0 0 12", Ok(false)),
    (b"t", "0 3, 0 0 1, 0 0 1, 0 0 1", Ok(true)),
    (b"t", "0 3, 0 0 1, 0 0 1, 0 0 2", Ok(false)),
    // delays of 0
    (b"t", "0 2, 0 0 0", Ok(true)),
    (b"t", "0 2, 0 0 2, 0 0 0, 0 0 0", Ok(true)),
    (b"t", "0 2, 0 0 2, 0 0 0, 0 0 1", Ok(false)),
    // from a reset
    (b"t", "0 2, 0 0 2, 1 0 0, 0 0 2", Ok(true)),
    (b"t", "0 2, 0 0 2, 1 0 0, 0 0 3", Ok(false)),
    (b"t", "0 2, 0 0 1, 1 0 0, 0 0 2", Ok(true)),
    (b"t", "0 2, 0 0 1, 1 0 0, 0 0 4", Ok(false)),
    (b"t", "0 2, 0 0 1, 0 0 2", Ok(false)),
];

const AT_POINT: [Row; 6] = [
    (b"t", "0 1, 0 0 1", Ok(false)),
    (b"t", "0 1, 0 0 2", Ok(false)),
    (b"t", "0 2, 0 0 1", Ok(true)),
    (b"t", "0 2, 0 0 3", Ok(false)),
    (b"t", "0 2, 0 0 1, 0 0 2", Ok(false)),
    (b"t", "0 2, 0 0 1, 1 0 0, 0 0 1", Ok(true)),
];

const AT_EDGE: [Row; 5] = [
    (b"t", "0 1, 0 0 0", Ok(true)),
    (b"t", "0 1, 0 0 1", Ok(false)),
    (b"t", "0 2, 0 0 1", Ok(false)),
    (b"t", "0 65535, 0 0 1", Ok(false)),
    (b"t", "0 1, 0 0 4000000000", Ok(false)),
];

const UP_TO_250: [Row; 7] = [
    (b"t", "0 1, 0 0 250", Ok(true)),
    (b"t", "0 1, 0 0 251", Ok(false)),
    (b"t", "0 65535, 0 0 16383750", Ok(true)),
    (b"t", "0 65535, 0 0 16383751", Ok(false)),
    (b"t", "0 65535, 0 0 16383749, 0 0 1", Ok(true)),
    (b"t", "0 65535, 0 0 16383749, 0 0 2", Ok(false)),
    (b"t", "0 65535, 0 0 4000000000", Ok(false)),
];

const TOO_LATE: [Row; 4] = [
    (b"t", "0 1", Ok(false)),
    (b"t", "0 1, 0 0 1", Ok(false)),
    (b"t", "0 1, 0 0 0", Ok(false)),
    (b"t", "0 1, 1 0 0", Ok(false)),
];

// Clocks 0 and 1 apart by a fraction.
const OF_TWO: [Row; 10] = [
    (b"t", "0 2, 0 0 8", Ok(true)),
    (b"t", "0 2, 1 0 0, 0 0 8", Ok(true)),
    (b"t", "0 2, 0 0 1, 1 0 0, 0 0 1", Ok(true)),
    (b"t", "0 2, 0 0 1, 1 0 0, 0 0 2", Ok(false)),
    (b"t", "0 2, 0 0 1, 1 0 0, 0 0 3", Ok(false)),
    (b"t", "0 2, 0 0 2, 1 0 0", Ok(true)),
    (b"t", "0 2, 0 0 2, 1 0 0, 0 0 0", Ok(true)),
    (b"t", "0 2, 0 0 2, 1 0 0, 0 0 1", Ok(false)),
    (b"t", "0 2, 0 0 2, 1 0 0, 0 0 2", Ok(false)),
    (b"t", "0 2, 0 0 3, 1 0 0", Ok(false)),
];

const OF_FOUR: [Row; 4] = [
    (b"t", "0 2, 0 0 2, 1 0 0, 0 0 2", Ok(true)),
    (b"t", "0 2, 0 0 2, 1 0 0, 0 0 3", Ok(false)),
    (b"t", "0 2, 0 0 4", Ok(false)),
    (b"t", "0 2, 0 0 1, 1 0 0, 0 0 2", Ok(true)),
];

const WITHOUT_CLOCKS: [Row; 7] = [
    (b"t", "0 1", Ok(true)),
    (b"t!", "0 1", Ok(false)),
    (b"t", "0 1, 0 0 0", Ok(true)),
    (b"t", "0 1, 0 0 4000000000", Ok(true)),
    (b"t", "0 65535, 0 0 4294967295, 0 0 4294967295", Ok(true)),
    (b"t", "0 7, 0 0 3, 1 0 0, 0 0 3", Ok(true)),
    (b"t!", "0 7, 0 0 3, 1 0 0, 0 0 3", Ok(false)),
];

// Where urgent is true no time passes, not even none.
const ALWAYS_URGENT: [Row; 5] = [
    (b"t", "0 1", Ok(true)),
    (b"t", "0 1, 1 0 0", Ok(true)),
    (b"t", "0 1, 0 0 0", Ok(false)),
    (b"t", "0 1, 0 0 1", Ok(false)),
    (b"t", "0 1, 1 0 0, 0 0 0", Ok(false)),
];

// Urgent is judged in the state before the delay.
const URGENT_AT_1: [Row; 7] = [
    (b"t", "0 1, 0 0 0", Ok(true)),
    (b"v\x00\x01", "0 1, 0 0 9, 1 1 0", Ok(true)),
    (b"t", "0 1, 1 1 0, 0 1 0", Ok(false)),
    (b"t", "0 1, 1 1 0, 0 1 1", Ok(false)),
    (b"t", "0 1, 1 1 0, 1 1 0", Ok(true)),
    (b"v\x00\x00", "0 1, 1 1 0, 1 0 0, 0 0 1", Ok(true)),
    // a delay that names another valuation
    (b"t", "0 1, 0 1 0", Ok(false)),
];

#[test]
fn holes(rt: HostRuntime) -> Result<(), Fail> {
    check_runs(&rt, HOLE, &AT_HOLE)?;
    check_runs(&rt, POINT, &AT_POINT)?;
    check_runs(&rt, EDGE, &AT_EDGE)
}

#[test]
fn ends_of_time(rt: HostRuntime) -> Result<(), Fail> {
    check_runs(&rt, LONG, &UP_TO_250)?;
    check_runs(&rt, LATE, &TOO_LATE)
}

#[test]
fn several_clocks(rt: HostRuntime) -> Result<(), Fail> {
    check_runs(&rt, TWO, &OF_TWO)?;
    check_runs(&rt, FOUR, &OF_FOUR)?;
    check_runs(&rt, BARE, &WITHOUT_CLOCKS)
}

#[test]
fn urgency(rt: HostRuntime) -> Result<(), Fail> {
    check_runs(&rt, STILL, &ALWAYS_URGENT)?;
    check_runs(&rt, RUSH, &URGENT_AT_1)
}
