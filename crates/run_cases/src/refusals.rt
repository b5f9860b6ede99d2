// What is refused, and which refusal comes first.
use super::records::{BARE, PAIR, WINDOW};
use super::tried::{Row, answer, check_runs};
use instruction::Refusal;
use runs::Step;
use std::test::Fail;

const QUESTIONS: [Row; 11] = [
    (b"", "0 1", Err((12, 7, 0))),
    (b"x", "0 1", Err((7, 7, 0))),
    (b"n\x00\x01", "0 1", Err((8, 7, 0))),
    (b"<\x00\x01", "0 1", Err((8, 7, 0))),
    (b"v\x00", "0 1", Err((9, 7, 0))),
    (b"v\x01\x00", "0 1", Err((10, 7, 1))),
    (b"v\x00\x02", "0 1", Err((11, 7, 2))),
    (b"tt", "0 1", Err((12, 7, 2))),
    // before a number out of range, and before an answer
    (b"tx", "0 0", Err((7, 7, 1))),
    (b"", "2 65536, 2 2 1", Err((12, 7, 0))),
    (b"tt", "1 1, 1 1 0", Err((12, 7, 2))),
];

// In a record with two valuations.
const NUMBERS: [Row; 35] = [
    // the parts of a unit
    (b"t", "0 0", Err((18, 0, 0))),
    (b"t", "0 1", Ok(true)),
    (b"t", "0 65535", Ok(true)),
    (b"t", "0 65536", Err((18, 0, 0))),
    (b"t", "0 4294967295", Err((18, 0, 0))),
    // the start
    (b"t", "1 1", Ok(false)),
    (b"t", "2 1", Err((18, 0, 0))),
    (b"t", "65536 1", Err((18, 0, 0))),
    (b"t", "4294967295 1", Err((18, 0, 0))),
    // a kind
    (b"t", "0 1, 2 0 0", Err((18, 0, 0))),
    (b"t", "0 1, 255 0 0", Err((18, 0, 0))),
    (b"t", "0 1, 0 0 0, 2 0 0", Err((18, 0, 1))),
    (b"t", "0 1, 0 0 0, 0 0 0, 2 0 1", Err((18, 0, 2))),
    // a valuation
    (b"t", "0 1, 0 2 0", Err((18, 0, 0))),
    (b"t", "0 1, 1 2 0", Err((18, 0, 0))),
    (b"t", "0 1, 0 65536 0", Err((18, 0, 0))),
    (b"t", "0 1, 1 65537 0", Err((18, 0, 0))),
    (b"t", "0 1, 0 0 0, 0 4294967295 0", Err((18, 0, 1))),
    (b"t", "0 1, 0 0 0, 1 4294967295 0", Err((18, 0, 1))),
    // a delay
    (b"t", "0 1, 1 1 1", Err((18, 0, 0))),
    (b"t", "0 1, 0 0 1, 1 1 4294967295", Err((18, 0, 1))),
    (b"t", "0 1, 0 0 4294967295", Ok(true)),
    // a step that could be taken does not matter, nor one that could not
    (b"t", "0 2, 0 0 1, 1 1 0, 2 1 0", Err((18, 0, 2))),
    (b"t", "0 1, 1 1 0, 2 0 0", Err((18, 0, 1))),
    (b"t", "0 1, 0 1 0, 0 2 0", Err((18, 0, 1))),
    (b"t", "1 1, 0 1 0, 1 0 1", Err((18, 0, 1))),
    (b"t!", "0 1, 0 0 0, 1 0 1", Err((18, 0, 1))),
    // the first of several
    (b"t", "0 0, 0 0 0, 2 0 0", Err((18, 0, 0))),
    (b"t", "2 1, 0 0 0, 2 0 0", Err((18, 0, 0))),
    (b"t", "0 65536, 0 0 0, 0 2 0", Err((18, 0, 0))),
    (b"t", "0 1, 0 0 0, 2 0 0, 0 2 0", Err((18, 0, 1))),
    (b"t", "0 1, 0 0 0, 0 2 0, 1 1 1", Err((18, 0, 1))),
    (b"t", "0 1, 0 0 0, 1 1 1, 2 0 0", Err((18, 0, 1))),
    (b"t", "0 1, 1 1 1, 0 0 0, 1 1 1", Err((18, 0, 0))),
    (b"t", "0 1, 2 2 1", Err((18, 0, 0))),
];

// In a record with one valuation, and in one with six.
const OF_ONE: [Row; 4] = [
    (b"t", "0 1, 1 0 0", Ok(true)),
    (b"t", "1 1", Err((18, 0, 0))),
    (b"t", "0 1, 0 1 0", Err((18, 0, 0))),
    (b"t", "0 1, 1 0 0, 1 1 0", Err((18, 0, 1))),
];

const OF_SIX: [Row; 4] = [
    (b"t", "5 1", Ok(false)),
    (b"t", "6 1", Err((18, 0, 0))),
    (b"t", "0 1, 1 0 0, 1 5 0", Ok(false)),
    (b"t", "0 1, 1 0 0, 1 6 0", Err((18, 0, 1))),
];

#[test]
fn questions(rt: HostRuntime) -> Result<(), Fail> {
    check_runs(&rt, WINDOW, &QUESTIONS)
}

#[test]
fn numbers(rt: HostRuntime) -> Result<(), Fail> {
    check_runs(&rt, WINDOW, &NUMBERS)?;
    check_runs(&rt, BARE, &OF_ONE)?;
    check_runs(&rt, PAIR, &OF_SIX)
}

const LONGEST: Step = Step {
    kind: 0,
    valuation: 0,
    delay: 4_294_967_295,
};

const UNKNOWN: Step = Step {
    kind: 2,
    valuation: 0,
    delay: 0,
};

// A run with a number out of range.
fn refused(position: usize) -> Refusal {
    Refusal {
        number: 18,
        section: 0,
        position,
    }
}

// 65,535 steps are a run, and one more is too many, whatever it is.
#[test]
fn many_steps(rt: HostRuntime) -> Result<(), Fail> {
    let mut steps = Vec::new(rt.alloc());
    steps.resize(65_534, LONGEST)?;
    steps.push(UNKNOWN)?;
    let said = answer(WINDOW, b"t", 0, 65535, steps.as_slice());
    assert_eq!(rt; said, Err(refused(65_534)));
    let _ = steps.pop();
    steps.push(LONGEST)?;
    let said = answer(WINDOW, b"v\x00\x00", 0, 65535, steps.as_slice());
    assert_eq!(rt; said, Ok(true));
    steps.push(LONGEST)?;
    let said = answer(WINDOW, b"v\x00\x00", 0, 65535, steps.as_slice());
    assert_eq!(rt; said, Err(refused(0)));
    steps.push(UNKNOWN)?;
    let said = answer(WINDOW, b"t", 0, 65535, steps.as_slice());
    assert_eq!(rt; said, Err(refused(0)));
    Ok(())
}
