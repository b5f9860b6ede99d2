// The length of a formula, and every byte as a mark.
use super::tried::{ALL, add_formula, answer, check_formula, first_byte};
use instruction::Refusal;
use std::alloc::{AllocError, Global};
use std::test::Fail;

// What is wrong with a formula that is `t` and then one byte over and over.
#[derive(Clone, Copy)]
enum LongFault {
    // at the first byte of the count; a question has none, and there at its first byte
    TooLong,
    // at the second byte of the formula
    UnknownMark,
}

// A length, the byte behind the `t`, and what is wrong.
const LENGTHS: [(usize, u8, Option<LongFault>); 13] = [
    (1, b'!', None),
    (2, b'!', None),
    (255, b'!', None),
    (256, b'!', None),
    (257, b'!', None),
    (1999, b'!', None),
    (2000, b'!', None),
    (2000, b'x', Some(LongFault::UnknownMark)),
    (2001, b'!', Some(LongFault::TooLong)),
    (2001, b'x', Some(LongFault::TooLong)),
    (2048, b'!', Some(LongFault::TooLong)),
    (2304, b'!', Some(LongFault::TooLong)),
    (4096, b'!', Some(LongFault::TooLong)),
];

fn filled(heap: Global, len: usize, byte: u8) -> Result<Vec<u8>, AllocError> {
    let mut code = Vec::new(heap);
    code.push(b't')?;
    code.resize(len, byte)?;
    Ok(code)
}

fn told(section: u8, fault: LongFault) -> Refusal {
    let first = first_byte(section);
    let (number, position) = match fault {
        LongFault::TooLong => (6, first.saturating_sub(2)),
        LongFault::UnknownMark => (7, first.saturating_add(1)),
    };
    Refusal {
        number,
        section,
        position,
    }
}

#[test]
fn lengths(rt: HostRuntime) -> Result<(), Fail> {
    for &section in &ALL {
        for &(len, byte, fault) in &LENGTHS {
            let code = filled(rt.alloc(), len, byte)?;
            let expected = fault.map(|fault| told(section, fault));
            check_formula(&rt, section, code.as_slice(), expected)?;
        }
    }
    Ok(())
}

// 8 variables, 4 clocks and 8 formulas of 2,000 bytes: 10 bytes and 8 times 2,002.
#[test]
fn largest_record(rt: HostRuntime) -> Result<(), Fail> {
    let mut record = b"\x08\x02\x02\x02\x02\x02\x02\x04\x04\x04".to_vec(rt.alloc())?;
    let code = filled(rt.alloc(), 2000, b'!')?;
    for _ in 0..8u8 {
        add_formula(&mut record, code.as_slice())?;
    }
    assert_eq!(rt; answer(record.as_slice()), None);
    record.push(b't')?;
    let expected = Refusal {
        number: 13,
        section: 6,
        position: 16_026,
    };
    assert_eq!(rt; answer(record.as_slice()), Some(expected));
    Ok(())
}

// The fault of a formula that is one byte alone, in the section of this number.
fn alone(mark: u8, section: u8) -> Option<u8> {
    let with_next = section == 2 || section == 5;
    let with_clocks = with_next || section == 4;
    match mark as char {
        't' => None,
        '!' | '&' | '|' => Some(12),
        'v' => Some(9),
        'n' | 's' => Some(if with_next { 9 } else { 8 }),
        '<' | 'l' | '=' | 'g' | '>' => Some(if with_clocks { 9 } else { 8 }),
        _ => Some(7),
    }
}

#[test]
fn every_byte(rt: HostRuntime) -> Result<(), Fail> {
    for &section in &ALL {
        for mark in 0..=255u8 {
            let expected = alone(mark, section).map(|number| Refusal {
                number,
                section,
                position: first_byte(section),
            });
            check_formula(&rt, section, &[mark], expected)?;
        }
    }
    Ok(())
}
