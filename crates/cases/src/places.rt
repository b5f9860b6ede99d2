// How much room a place takes.
use regions::Place;
use std::mem::size_of;
use std::test::Fail;

// A table has room for 65,535 dense places, 28 bytes each.
#[test]
fn bytes_of_a_dense_place(rt: HostRuntime) -> Result<(), Fail> {
    assert!(rt; size_of::<Place>() <= 28, "{} bytes", size_of::<Place>());
    Ok(())
}
