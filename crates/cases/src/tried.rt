// Records and questions made of parts, and what their readers say of them.
use instruction::Refusal;
use model::{read, read_question};
use std::alloc::{AllocError, Global};
use std::process::Abort;
use std::test::Fail;

// The sections that hold a formula: the resets, start, invariant, transition and urgent, and the
// question. The cases have sections as numbers, for what is answered is a number, and these are fixed.
pub(super) const ALL: [u8; 6] = [2, 3, 4, 5, 6, 7];

const QUESTION: u8 = 7;

// One variable with two values, one clock, and five formulas that are `t`.
pub(super) const PLAIN: &[u8; 18] = b"\x01\x02\x01\x00\x01t\x00\x01t\x00\x01t\x00\x01t\x00\x01t";

// A formula and its fault: the number, and the position counted from the formula's first byte.
pub(super) type Row = (&'static [u8], u8, usize);

// What is said of a record: nothing if it is accepted.
pub(super) fn answer(record: &[u8]) -> Option<Refusal> {
    read(record).err().map(Refusal::from)
}

// What is said of a question to a record.
pub(super) fn answer_to(question: &[u8], record: &[u8]) -> Option<Refusal> {
    read(record)
        .and_then(|model| read_question(question, &model.sizes))
        .err()
        .map(Refusal::from)
}

// Adds a formula behind its count.
pub(super) fn add_formula(record: &mut Vec<u8>, code: &[u8]) -> Result<(), AllocError> {
    let count = (code.len() % 65536) as u16;
    record.extend_from_slice(&count.to_be_bytes())?;
    record.extend_from_slice(code)
}

// The record PLAIN with another formula in one section from 2 to 6.
pub(super) fn plain_with(heap: Global, section: u8, code: &[u8]) -> Result<Vec<u8>, AllocError> {
    let mut record = b"\x01\x02\x01".to_vec(heap)?;
    for s in 2..QUESTION {
        add_formula(&mut record, if s == section { code } else { b"t" })?;
    }
    Ok(record)
}

// The position of the first byte of a formula in a section of PLAIN: 3 bytes before the counts,
// and 3 bytes for each formula before it. A question begins at 0.
pub(super) fn first_byte(section: u8) -> usize {
    match section {
        2..=6 => 3 + 3 * (section as usize - 2) + 2,
        _ => 0,
    }
}

// The answer to a formula in a section of PLAIN, or to a question, is the expected one.
pub(super) fn check_formula(
    rt: &(impl Abort + AllocGlobal),
    section: u8,
    code: &[u8],
    expected: Option<Refusal>,
) -> Result<(), Fail> {
    let answered = match section {
        QUESTION => answer_to(code, PLAIN),
        _ => answer(plain_with(rt.alloc(), section, code)?.as_slice()),
    };
    assert_eq!(rt; answered, expected, "section {section}: {code:?}");
    Ok(())
}

// Every formula is accepted in each of the sections.
pub(super) fn check_accepted(
    rt: &(impl Abort + AllocGlobal),
    sections: &[u8],
    codes: &[&[u8]],
) -> Result<(), Fail> {
    for section in sections {
        for code in codes {
            check_formula(rt, *section, *code, None)?;
        }
    }
    Ok(())
}

// Every row is refused so in each of the sections.
pub(super) fn check_refused(
    rt: &(impl Abort + AllocGlobal),
    sections: &[u8],
    rows: &[Row],
) -> Result<(), Fail> {
    for &section in sections {
        for &(code, number, offset) in rows {
            let expected = Refusal {
                number,
                section,
                position: first_byte(section).saturating_add(offset),
            };
            check_formula(rt, section, code, Some(expected))?;
        }
    }
    Ok(())
}
