// Discrete steps: what they are judged by, and the clocks after them.
use super::records::{OLD, PAIR, RING};
use super::tried::{Row, check_runs};
use std::test::Fail;

// A reset clock is 0 afterwards, and the other keeps its value.
const AROUND: [Row; 11] = [
    (b"v\x00\x02", "0 1, 0 0 1, 1 1 0, 1 2 0", Ok(true)),
    (b"v\x00\x02", "0 2, 0 0 2, 1 1 0, 1 2 0", Ok(true)),
    (b"t", "0 2, 0 0 1, 1 1 0, 1 2 0", Ok(false)),
    (b"t", "0 1, 1 1 0, 1 2 0", Ok(false)),
    (b"t", "0 1, 0 0 2, 1 1 0, 1 2 0", Ok(false)),
    (b"t", "0 1, 1 1 0, 0 1 1, 1 2 0", Ok(false)),
    (b"t", "0 1, 0 0 1, 1 1 0, 0 1 1, 1 2 0", Ok(false)),
    // clock 1 is reset by the value before the step
    (b"t", "0 1, 0 0 1, 1 1 0, 1 2 0, 1 0 0", Ok(false)),
    (
        b"v\x00\x00",
        "0 1, 0 0 1, 1 1 0, 1 2 0, 0 2 1, 1 0 0",
        Ok(true),
    ),
    // and once more around
    (
        b"v\x00\x02",
        "0 1, 0 0 1, 1 1 0, 1 2 0, 0 2 1, 1 0 0, 1 1 0, 1 2 0",
        Ok(true),
    ),
    (
        b"t",
        "0 1, 0 0 1, 1 1 0, 1 2 0, 0 2 1, 1 0 0, 0 0 1, 1 1 0, 1 2 0",
        Ok(false),
    ),
];

// Resets are judged by the clocks before the step.
const BY_OLD_CLOCKS: [Row; 6] = [
    (b"t", "0 1, 0 0 2, 1 0 0, 0 0 2", Ok(true)),
    (b"t", "0 1, 0 0 1, 1 0 0, 0 0 1", Ok(true)),
    (b"t", "0 1, 0 0 1, 1 0 0, 0 0 2", Ok(false)),
    (b"t", "0 1, 0 0 2, 1 0 0, 1 0 0, 0 0 2", Ok(true)),
    (b"t", "0 1, 0 0 2, 1 0 0, 0 0 3", Ok(false)),
    (b"t", "0 2, 0 0 3, 1 0 0, 0 0 2", Ok(false)),
];

// Valuations 0 to 5 are the values 0 0, 0 1, 0 2, 1 0, 1 1 and 1 2.
const BY_VALUES: [Row; 17] = [
    (b"v\x00\x00v\x01\x00&", "0 1", Ok(true)),
    (b"v\x00\x00v\x01\x00&", "0 1, 1 0 0", Ok(true)),
    (b"v\x00\x00v\x01\x02&", "0 1, 1 2 0", Ok(true)),
    (b"v\x00\x01v\x01\x00&", "0 1, 1 3 0", Ok(true)),
    (b"v\x00\x01", "0 1, 1 2 0", Ok(false)),
    (b"v\x01\x02", "0 1, 1 3 0", Ok(false)),
    (b"v\x00\x01", "0 1, 0 0 5, 1 3 0, 0 3 5", Ok(true)),
    // not allowed
    (b"t", "0 1, 1 1 0", Ok(false)),
    (b"t", "0 1, 1 4 0", Ok(false)),
    (b"t", "0 1, 1 5 0", Ok(false)),
    (b"t", "0 1, 1 3 0, 1 0 0", Ok(false)),
    (b"t", "0 1, 1 3 0, 1 3 0", Ok(false)),
    // allowed, but the new state is not valid
    (b"t", "0 1, 1 2 0, 1 5 0", Ok(false)),
    (b"t", "0 1, 1 3 0, 1 5 0", Ok(false)),
    // a good step behind a bad one
    (b"t", "0 1, 1 1 0, 1 1 0", Ok(false)),
    // start does not hold, or the state is not valid
    (b"t", "1 1", Ok(false)),
    (b"t", "5 1", Ok(false)),
];

#[test]
fn clocks_after_a_step(rt: HostRuntime) -> Result<(), Fail> {
    check_runs(&rt, RING, &AROUND)?;
    check_runs(&rt, OLD, &BY_OLD_CLOCKS)
}

#[test]
fn values_of_a_step(rt: HostRuntime) -> Result<(), Fail> {
    check_runs(&rt, PAIR, &BY_VALUES)
}
