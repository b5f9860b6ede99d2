// Valuations in mixed radix, and ceilings.
use super::parts::{RECORD, model_of};
use super::tried::PLAIN;
use ceilings::ceilings;
use model::Pack;
use std::test::Fail;
use valuations::{number, valuations, values};

// 16, 16 and 4 values: the values 1, 2, 3 have the number (1 · 16 + 2) · 4 + 3.
#[test]
fn valuations_of_a_record(rt: HostRuntime) -> Result<(), Fail> {
    let sizes = model_of(RECORD)?.sizes;
    assert_eq!(rt; valuations(&sizes), 1024);
    assert_eq!(rt; number(&sizes, [1, 2, 3, 0, 0, 0, 0, 0]), Some(75));
    assert_eq!(rt; number(&sizes, [15, 15, 3, 0, 0, 0, 0, 0]), Some(1023));
    assert_eq!(rt; number(&sizes, [0, 0, 4, 0, 0, 0, 0, 0]), None);
    assert_eq!(rt; values(&sizes, 75), [1, 2, 3, 0, 0, 0, 0, 0]);
    assert_eq!(rt; values(&sizes, 1023), [15, 15, 3, 0, 0, 0, 0, 0]);
    Ok(())
}

fn ceilings_of(record: &[u8]) -> Result<[u16; 4], Fail> {
    let model = model_of(record)?;
    let pack = Pack {
        bytes: record,
        model: &model,
    };
    Ok(ceilings(&pack))
}

// RECORD compares clock 3 with 250 and no other; PLAIN compares none.
#[test]
fn ceilings_of_a_record(rt: HostRuntime) -> Result<(), Fail> {
    assert_eq!(rt; ceilings_of(RECORD)?, [0, 0, 0, 250]);
    assert_eq!(rt; ceilings_of(PLAIN)?, [0, 0, 0, 0]);
    Ok(())
}
