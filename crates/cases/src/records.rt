// Whole records: the numbers of variables, values and clocks, where a record ends, and what
// stands behind it.
use super::tried::{PLAIN, answer};
use instruction::Refusal;

// A record and its refusal: number, section, position.
type Whole = (&'static [u8], u8, u8, usize);

const REFUSED: [Whole; 62] = [
    // nothing at all
    (b"", 1, 1, 0),
    // 8 variables, and 9
    (b"\x08", 1, 1, 1),
    (b"\x09", 2, 1, 0),
    (b"\xff\x02", 2, 1, 0),
    // 2 to 16 values
    (b"\x01\x00", 3, 1, 1),
    (b"\x01\x01", 3, 1, 1),
    (b"\x01\x02", 1, 2, 2),
    (b"\x01\x10", 1, 2, 2),
    (b"\x01\x11", 3, 1, 1),
    (b"\x01\xff", 3, 1, 1),
    (b"\x02\x02", 1, 1, 2),
    (b"\x02\x02\x01", 3, 1, 2),
    // a product of 1,024, and above
    (b"\x03\x10\x10\x04", 1, 2, 4),
    (b"\x03\x10\x10\x05", 4, 1, 3),
    (b"\x08\x02\x02\x02\x02\x02\x02\x04\x04", 1, 2, 9),
    (b"\x08\x02\x02\x02\x02\x02\x02\x04\x05", 4, 1, 8),
    (b"\x08\x10\x10\x10", 4, 1, 3),
    // the product passes at the last of four
    (b"\x04\x10\x10\x04\x02", 4, 1, 4),
    // a byte that is no number of values, where the product would pass too
    (b"\x03\x10\x10\x11", 3, 1, 3),
    (b"\x04\x10\x10\x04\x01", 3, 1, 4),
    // of two faults the first counts
    (b"\x04\x10\x10\x05\x11", 4, 1, 3),
    (b"\x02\x11\x11", 3, 1, 1),
    // 4 clocks, and 5
    (b"\x00", 1, 2, 1),
    (b"\x00\x00", 1, 3, 2),
    (b"\x00\x04", 1, 2, 2),
    (b"\x00\x05", 5, 2, 1),
    (b"\x00\xff", 5, 2, 1),
    (b"\x01\x02\x04", 1, 2, 3),
    (b"\x01\x02\x05\x07\xd1", 5, 2, 2),
    (b"\x08\x02\x02\x02\x02\x02\x02\x02\x02\x05", 5, 2, 9),
    // one byte of a count is there
    (b"\x00\x00\x00", 1, 3, 3),
    (b"\x00\x00\x07", 1, 3, 3),
    (b"\x00\x00\xff", 1, 3, 3),
    (b"\x00\x01\x08", 1, 2, 3),
    // a count of 2,000, and of 2,001, with nothing behind it
    (b"\x00\x00\x07\xd0", 1, 3, 4),
    (b"\x00\x00\x07\xd1", 6, 3, 2),
    (b"\x00\x01\x07\xd0", 1, 2, 4),
    (b"\x00\x01\x07\xd1", 6, 2, 2),
    (b"\x00\x00\xff\xff", 6, 3, 2),
    (b"\x00\x00\x08\x00t", 6, 3, 2),
    // a count of 256: its high byte comes first
    (b"\x00\x00\x01\x00t", 1, 3, 5),
    // the record ends inside a formula with a fault
    (b"\x00\x00\x00\x02x", 1, 3, 5),
    (b"\x00\x00\x00\x01x", 7, 3, 4),
    (b"\x00\x01\x00\x03v\x00", 1, 2, 6),
    // an empty formula, at the record's end and before another
    (b"\x00\x00\x00\x00", 12, 3, 4),
    (b"\x00\x00\x00\x01t\x00\x00\x00\x01t", 12, 4, 7),
    // the second, third and fourth of four resets
    (b"\x00\x04\x00\x01t\x00\x01x", 7, 2, 7),
    (b"\x00\x04\x00\x01t\x00\x01t\x00\x03<\x04\x00", 10, 2, 11),
    (
        b"\x00\x04\x00\x01t\x00\x01t\x00\x01t\x00\x03l\x03\xfb",
        11,
        2,
        15,
    ),
    (
        b"\x00\x04\x00\x01t\x00\x01t\x00\x01t\x00\x03l\x03\xfa",
        1,
        3,
        16,
    ),
    // no variable, and no clock
    (b"\x00\x00\x00\x03v\x00\x00", 10, 3, 5),
    (b"\x00\x00\x00\x01t\x00\x03<\x00\x00", 10, 4, 8),
    // each variable has its own number of values
    (b"\x02\x02\x03\x00\x00\x03v\x01\x02", 1, 4, 9),
    (b"\x02\x02\x03\x00\x00\x03v\x01\x03", 11, 3, 8),
    (b"\x02\x03\x02\x00\x00\x03v\x01\x02", 11, 3, 8),
    (b"\x01\x10\x00\x00\x03v\x00\x0f", 1, 4, 8),
    (b"\x01\x10\x00\x00\x03v\x00\x10", 11, 3, 7),
    // the last of eight variables
    (
        b"\x08\x02\x02\x02\x02\x02\x02\x02\x03\x00\x00\x03v\x07\x02",
        1,
        4,
        15,
    ),
    (
        b"\x08\x02\x02\x02\x02\x02\x02\x02\x03\x00\x00\x03v\x08\x00",
        10,
        3,
        13,
    ),
    // bytes behind the urgent formula
    (
        b"\x00\x00\x00\x01t\x00\x01t\x00\x01t\x00\x01t\x00",
        13,
        6,
        14,
    ),
    (
        b"\x01\x02\x01\x00\x01t\x00\x01t\x00\x01t\x00\x01t\x00\x01tx",
        13,
        6,
        18,
    ),
    (
        b"\x01\x02\x01\x00\x01t\x00\x01t\x00\x01t\x00\x01t\x00\x01t\x00\x01t",
        13,
        6,
        18,
    ),
];

const ACCEPTED: [&[u8]; 5] = [
    PLAIN,
    b"\x00\x00\x00\x01t\x00\x01t\x00\x01t\x00\x01t",
    b"\x03\x10\x10\x04\x00\x00\x01t\x00\x01t\x00\x01t\x00\x01t",
    b"\x08\x02\x02\x02\x02\x02\x02\x04\x04\x00\x00\x01t\x00\x01t\x00\x01t\x00\x01t",
    b"\x00\x04\x00\x01t\x00\x01t\x00\x01t\x00\x01t\x00\x01t\x00\x01t\x00\x01t\x00\x01t",
];

// The section in which a byte is missing, by how many bytes of PLAIN are there.
const MISSING_IN: [u8; 18] = [1, 1, 2, 2, 2, 2, 3, 3, 3, 4, 4, 4, 5, 5, 5, 6, 6, 6];

#[test]
fn accepted_records(rt: HostRuntime) {
    for &record in &ACCEPTED {
        assert_eq!(rt; answer(record), None);
    }
}

#[test]
fn refused_records(rt: HostRuntime) {
    for &(record, number, section, position) in &REFUSED {
        let expected = Refusal {
            number,
            section,
            position,
        };
        assert_eq!(rt; answer(record), Some(expected), "record {record:?}");
    }
}

// Every record that PLAIN begins with.
#[test]
fn cut_records(rt: HostRuntime) {
    for (len, &section) in MISSING_IN.iter().enumerate() {
        let expected = Refusal {
            number: 1,
            section,
            position: len,
        };
        let front = PLAIN.get(..len).unwrap_or(PLAIN);
        assert_eq!(rt; answer(front), Some(expected));
    }
}
