// A run in which something fails, judged and counted with what each crash after it leaves.
use crate::fitting::{Both, STORE_FAULT, Stands, fits, left_fits, which_stands};
use crate::fuses::Fusing;
use crate::scenes::Scene;
use crate::stops::{Comes, Found, over_files};
use package_tables::fault::Fault;
use std::alloc::Global;
use std::test::Fail;
use test_values::Checked;

/// How many runs a file stopped, in the request or as the world was read after it; how many a request answered by a
/// fault of its own; how many crashes of these left which world; and for how many runs the shelf had no store.
#[derive(Clone, Copy)]
pub struct Counts {
    pub stopped: u64,
    pub faults: u64,
    pub before: u64,
    pub after: u64,
    pub unshelved: u64,
}

impl Counts {
    /// None yet.
    pub fn new() -> Counts {
        Counts {
            stopped: 0,
            faults: 0,
            before: 0,
            after: 0,
            unshelved: 0,
        }
    }
}

/// One more.
pub fn add_one(count: &mut u64) {
    *count = count.saturating_add(1);
}

fn is_own_fault(found: &Found) -> bool {
    found.number == STORE_FAULT && !found.was_unshelved
}

// What a crash left.
fn check_crash(
    left: &[String],
    found: &Found,
    both: &Both,
    counts: &mut Counts,
    checked: &mut Checked,
) {
    let stands = which_stands(left, both);
    let fits = left_fits(found, stands);
    checked.is(if fits { "fits" } else { "left between" }, "fits");
    match stands {
        Stands::Before if is_own_fault(found) => add_one(&mut counts.before),
        Stands::After if is_own_fault(found) => add_one(&mut counts.after),
        _ => (),
    }
}

fn check_found(found: &Found, both: &Both, counts: &mut Counts, checked: &mut Checked) {
    checked.is(fits(found, both), "fits");
    for left in &found.left {
        check_crash(left, found, both, counts, checked);
    }
    if is_own_fault(found) {
        add_one(&mut counts.faults);
    }
    if found.was_unshelved {
        add_one(&mut counts.unshelved);
    }
}

/// What comes of the request of a scene, which comes again, where this fails. It ends with `OutOfMemory` where a file
/// stopped, or memory was refused, before the request.
pub fn checked_run(
    alloc: Global,
    fusing: &Fusing,
    scene: &Scene,
    both: &Both,
    counts: &mut Counts,
    checked: &mut Checked,
) -> Result<Found, Fault> {
    let found = over_files(alloc, fusing, scene, Comes::Again)?;
    if !found.is_prepared {
        return Err(Fault::OutOfMemory);
    }
    check_found(&found, both, counts, checked);
    Ok(found)
}

/// A test holds where nothing is wrong; else what is wrong is told.
pub fn nothing_wrong(alloc: Global, checked: &Checked) -> Result<(), Fail> {
    let wrong = String::from_str(alloc, checked.wrong())?;
    if wrong.is_empty() {
        Ok(())
    } else {
        Err(Fail::new(wrong))
    }
}
