// One request of each kind in a world, a split and a merge among them. Run by `torture/failing_allocations.sh`, which
// refuses each allocation in turn: a crash leaves the world before the request or the one after it, and the reply fits.
use crate::crashes::{Counts, checked_run, nothing_wrong};
use crate::fitting::{both_worlds, check_both};
use crate::fuses::Fusing;
use crate::scenes::{ADDS, COMES_AGAIN, DELETES, IS_REFUSED, LENDS, LINKS, Scene, TAKES_HOME};
use package_tables::fault::Fault;
use std::alloc::Global;
use std::test::Fail;
use test_values::Checked;

fn check(alloc: Global, scene: &Scene, checked: &mut Checked) -> Result<(), Fault> {
    let both = both_worlds(alloc, scene)?;
    check_both(alloc, &both, scene, checked);
    let mut counts = Counts::new();
    checked_run(alloc, &Fusing::Nothing, scene, &both, &mut counts, checked)?;
    Ok(())
}

// Ends with `OutOfMemory` where memory is refused outside the request.
fn holds(alloc: Global, scene: &Scene) -> Result<(), Fail> {
    let mut checked = Checked::new(alloc);
    check(alloc, scene, &mut checked)?;
    nothing_wrong(alloc, &checked)
}

#[test]
fn a_tile_is_added_or_not(rt: HostRuntime) -> Result<(), Fail> {
    holds(rt.alloc(), &ADDS)
}

#[test]
fn a_row_is_deleted_or_not(rt: HostRuntime) -> Result<(), Fail> {
    holds(rt.alloc(), &DELETES)
}

#[test]
fn a_row_is_linked_or_not(rt: HostRuntime) -> Result<(), Fail> {
    holds(rt.alloc(), &LINKS)
}

#[test]
fn a_request_comes_again_or_not(rt: HostRuntime) -> Result<(), Fail> {
    holds(rt.alloc(), &COMES_AGAIN)
}

#[test]
fn a_deletion_is_refused_or_not(rt: HostRuntime) -> Result<(), Fail> {
    holds(rt.alloc(), &IS_REFUSED)
}

#[test]
fn a_cut_is_lent_or_not(rt: HostRuntime) -> Result<(), Fail> {
    holds(rt.alloc(), &LENDS)
}

#[test]
fn a_loan_is_taken_home_or_not(rt: HostRuntime) -> Result<(), Fail> {
    holds(rt.alloc(), &TAKES_HOME)
}
