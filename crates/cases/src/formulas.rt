// Faults of formulas, in every section where they can come.
//
// The record has one variable with two values and one clock. Within one instruction the faults
// come in the order of their numbers from 7 to 12, and of two instructions the first counts.
use super::tried::{ALL, Row, check_accepted, check_refused};
use std::test::Fail;

// `n` and `s` stand in reset and transition formulas only.
const WITH_NEXT: [u8; 2] = [2, 5];

const WITHOUT_NEXT: [u8; 4] = [3, 4, 6, 7];

// Clock marks stand there and in the invariant.
const WITH_CLOCKS: [u8; 3] = [2, 4, 5];

const WITHOUT_CLOCKS: [u8; 3] = [3, 6, 7];

const GOOD: [&[u8]; 8] = [
    b"t",
    b"t!",
    b"tt&",
    b"tt|",
    b"v\x00\x00",
    b"v\x00\x01",
    b"tv\x00\x01!|",
    // 32 values wait
    b"tttttttttttttttttttttttttttttttt&&&&&&&&&&&&&&&||||||||||||||||",
];

const BAD: [Row; 37] = [
    // no mark: the bytes beside the marks, and the ends of the range
    (b"x", 7, 0),
    (b"\x00", 7, 0),
    (b"\xff", 7, 0),
    (b"u", 7, 0),
    (b"w", 7, 0),
    (b"V", 7, 0),
    (b" t", 7, 0),
    (b"t\"", 7, 1),
    (b"tx", 7, 1),
    // cut short
    (b"v", 9, 0),
    (b"v\x00", 9, 0),
    (b"tv\x00", 9, 1),
    // a variable that is not declared
    (b"v\x01\x00", 10, 1),
    (b"v\xff\x00", 10, 1),
    // not a value of the variable
    (b"v\x00\x02", 11, 2),
    (b"v\x00\xff", 11, 2),
    (b"tv\x00\x02&", 11, 3),
    // too few operands
    (b"!", 12, 0),
    (b"&", 12, 0),
    (b"|", 12, 0),
    (b"t&", 12, 1),
    (b"t|", 12, 1),
    (b"t!&", 12, 2),
    (b"tt&&", 12, 3),
    // a 33rd value waits
    (b"ttttttttttttttttttttttttttttttttt", 12, 32),
    (b"ttttttttttttttttttttttttttttttttv\x00\x00&", 12, 32),
    // not one value left: at the byte past the formula
    (b"", 12, 0),
    (b"tt", 12, 2),
    (b"tt|t!", 12, 5),
    // several faults in one instruction
    (b"v\x01", 9, 0),
    (b"v\x01\x02", 10, 1),
    (b"ttttttttttttttttttttttttttttttttx", 7, 32),
    (b"ttttttttttttttttttttttttttttttttv\x00", 9, 32),
    (b"ttttttttttttttttttttttttttttttttv\x01\x00", 10, 33),
    (b"ttttttttttttttttttttttttttttttttv\x00\x02", 11, 34),
    // faults in two instructions
    (b"&x", 12, 0),
    (b"v\x00\x02x", 11, 2),
];

const GOOD_NEXT: [&[u8]; 5] = [
    b"n\x00\x00",
    b"n\x00\x01",
    b"s\x00",
    b"v\x00\x00n\x00\x01&",
    b"s\x00s\x00|!",
];

const BAD_NEXT: [Row; 13] = [
    (b"n", 9, 0),
    (b"n\x00", 9, 0),
    (b"s", 9, 0),
    (b"n\x01\x00", 10, 1),
    (b"s\x01", 10, 1),
    (b"s\xff", 10, 1),
    (b"n\x00\x02", 11, 2),
    (b"ts\x00", 12, 3),
    (b"tttttttttttttttttttttttttttttttts\x00", 12, 32),
    // several faults in one instruction
    (b"n\x01", 9, 0),
    (b"n\x01\x02", 10, 1),
    (b"ttttttttttttttttttttttttttttttttn\x00\x02", 11, 34),
    (b"tttttttttttttttttttttttttttttttts\x01", 10, 33),
];

const BARRED_NEXT: [Row; 9] = [
    (b"n\x00\x01", 8, 0),
    (b"s\x00", 8, 0),
    (b"tn\x00\x01&", 8, 1),
    (b"ts\x00&", 8, 1),
    // several faults in one instruction
    (b"n", 8, 0),
    (b"s", 8, 0),
    (b"n\x01\x02", 8, 0),
    (b"s\x01", 8, 0),
    (b"tttttttttttttttttttttttttttttttts\x00", 8, 32),
];

const GOOD_CLOCKS: [&[u8]; 7] = [
    b"<\x00\x00",
    b"<\x00\xfa",
    b"l\x00\xfa",
    b"=\x00\xfa",
    b"g\x00\xfa",
    b">\x00\xfa",
    b">\x00\x00<\x00\x01&",
];

const BAD_CLOCKS: [Row; 22] = [
    (b"<", 9, 0),
    (b"l\x00", 9, 0),
    (b"=\x00", 9, 0),
    (b"g\x00", 9, 0),
    (b">\x00", 9, 0),
    // a clock that is not declared
    (b"<\x01\x00", 10, 1),
    (b"l\x01\x00", 10, 1),
    (b"=\x01\x00", 10, 1),
    (b"g\x01\x00", 10, 1),
    (b">\xff\x00", 10, 1),
    // a constant above 250
    (b"<\x00\xfb", 11, 2),
    (b"l\x00\xfb", 11, 2),
    (b"=\x00\xfb", 11, 2),
    (b"g\x00\xfb", 11, 2),
    (b">\x00\xff", 11, 2),
    (b"t<\x00\x00", 12, 4),
    (b"ttttttttttttttttttttttttttttttttl\x00\x00", 12, 32),
    // several faults in one instruction
    (b"<\x01", 9, 0),
    (b"<\x01\xfb", 10, 1),
    (b"ttttttttttttttttttttttttttttttttg\x00", 9, 32),
    (b"tttttttttttttttttttttttttttttttt=\x01\x00", 10, 33),
    (b"tttttttttttttttttttttttttttttttt>\x00\xfb", 11, 34),
];

const BARRED_CLOCKS: [Row; 10] = [
    (b"<\x00\x00", 8, 0),
    (b"l\x00\x00", 8, 0),
    (b"=\x00\x00", 8, 0),
    (b"g\x00\x00", 8, 0),
    (b">\x00\x00", 8, 0),
    (b"t=\x00\x00&", 8, 1),
    // several faults in one instruction
    (b"<", 8, 0),
    (b"l\x00", 8, 0),
    (b"=\x01\xfb", 8, 0),
    (b"ttttttttttttttttttttttttttttttttg\x00\x00", 8, 32),
];

#[test]
fn marks_of_every_section(rt: HostRuntime) -> Result<(), Fail> {
    check_accepted(&rt, &ALL, &GOOD)?;
    check_refused(&rt, &ALL, &BAD)
}

#[test]
fn next_values(rt: HostRuntime) -> Result<(), Fail> {
    check_accepted(&rt, &WITH_NEXT, &GOOD_NEXT)?;
    check_refused(&rt, &WITH_NEXT, &BAD_NEXT)?;
    check_refused(&rt, &WITHOUT_NEXT, &BARRED_NEXT)
}

#[test]
fn clocks(rt: HostRuntime) -> Result<(), Fail> {
    check_accepted(&rt, &WITH_CLOCKS, &GOOD_CLOCKS)?;
    check_refused(&rt, &WITH_CLOCKS, &BAD_CLOCKS)?;
    check_refused(&rt, &WITHOUT_CLOCKS, &BARRED_CLOCKS)
}
