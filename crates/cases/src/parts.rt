// What the reader hands out of an accepted record: its sizes, and each formula with its position.
use super::tried::PLAIN;
use instruction::Refusal;
use model::{Model, Pack, Role, read};
use std::test::Fail;

// Three variables and four clocks. The formulas have lengths from 1 to 8.
pub(super) const RECORD: &[u8; 57] = b"\x03\x10\x10\x04\x04\
\x00\x01t\
\x00\x02t!\
\x00\x03v\x00\x0f\
\x00\x04v\x02\x03!\
\x00\x05ttt&&\
\x00\x06>\x03\xfat&!\
\x00\x07s\x01n\x02\x00&!\
\x00\x08v\x01\x00v\x01\x0f|!";

// A formula of RECORD: its role, the position of its first byte, and its bytes.
const PARTS: [(Role, usize, &[u8]); 8] = [
    (Role::Reset(0), 7, b"t"),
    (Role::Reset(1), 10, b"t!"),
    (Role::Reset(2), 14, b"v\x00\x0f"),
    (Role::Reset(3), 19, b"v\x02\x03!"),
    (Role::Start, 25, b"ttt&&"),
    (Role::Invariant, 32, b">\x03\xfat&!"),
    (Role::Transition, 40, b"s\x01n\x02\x00&!"),
    (Role::Urgent, 49, b"v\x01\x00v\x01\x0f|!"),
];

pub(super) fn model_of(record: &[u8]) -> Result<Model, Fail> {
    read(record).map_err(|fault| Fail::new(format_args!(
        "refused with {}",
        Refusal::from(fault).number
    )))
}

#[test]
fn sizes(rt: HostRuntime) -> Result<(), Fail> {
    let sizes = model_of(RECORD)?.sizes;
    assert_eq!(rt; sizes.variables, 3);
    assert_eq!(rt; sizes.clocks, 4);
    assert_eq!(rt; sizes.counts(), b"\x10\x10\x04".as_slice());
    Ok(())
}

#[test]
fn formulas_of_a_record(rt: HostRuntime) -> Result<(), Fail> {
    let model = model_of(RECORD)?;
    let pack = Pack {
        bytes: RECORD,
        model: &model,
    };
    for &(role, position, code) in &PARTS {
        let Some(part) = pack.formula(role) else {
            return Err(Fail::new("no formula"));
        };
        assert_eq!(rt; part.at, position);
        assert_eq!(rt; part.code, code);
    }
    Ok(())
}

// A record, a clock, and whether the record has a reset formula for it.
const RESETS: [(&[u8], u8, bool); 6] = [
    (RECORD, 3, true),
    (RECORD, 4, false),
    (RECORD, 255, false),
    (PLAIN, 0, true),
    (PLAIN, 1, false),
    (b"\x00\x00\x00\x01t\x00\x01t\x00\x01t\x00\x01t", 0, false),
];

#[test]
fn resets_of_declared_clocks(rt: HostRuntime) -> Result<(), Fail> {
    for &(record, clock, there) in &RESETS {
        let pack = Pack {
            bytes: record,
            model: &model_of(record)?,
        };
        assert_eq!(rt; pack.formula(Role::Reset(clock)).is_some(), there);
    }
    Ok(())
}
