// What is too many, by the rules: a package holds up to 1 000 000 items of a kind and 4 000 000
// links, and there are up to 1 000 000 000 receipts. That there are up to 256 packages, a session
// shows.
use sqlite::{Alter, MemStore};
use std::alloc::Global;
use std::test::Fail;
use test_values::{NOTHING, sums};
use world_members::members::Member;
use world_queries::too_many::{is_past_limits, is_too_many};

#[test]
fn limits_of_a_package(rt: HostRuntime) -> Result<(), Fail> {
    for (held, is_past) in [
        (
            sums(1_000_000, 1_000_000, 1_000_000, 4_000_000, u64::MAX),
            false,
        ),
        (sums(1_000_001, 0, 0, 0, 0), true),
        (sums(0, 1_000_001, 0, 0, 0), true),
        (sums(0, 0, 1_000_001, 0, 0), true),
        (sums(0, 0, 0, 4_000_001, 0), true),
    ] {
        assert!(rt; is_past_limits(held) == is_past);
    }
    Ok(())
}

// Whether the receipt 1 000 000 000 is the last, whatever the packages.
fn ends_there<S: Alter + Drop>(alloc: Global) -> bool {
    let members: Vec<Member<S>> = Vec::new(alloc);
    !is_too_many(&members, 0, NOTHING, 999_999_999)
        && is_too_many(&members, 0, NOTHING, 1_000_000_000)
}

#[test]
fn limits_of_receipts(rt: HostRuntime) -> Result<(), Fail> {
    assert!(rt; ends_there::<MemStore>(rt.alloc()));
    Ok(())
}
