// One request of each kind, once for each call of a file that stops in it. A crash leaves the world before the
// request or the one after it, and the reply fits.
use crate::crashes::{Counts, add_one, checked_run, nothing_wrong};
use crate::fitting::{Both, both_worlds, check_both, went_through};
use crate::fuses::{Fusing, Stops};
use crate::loans::{A, B, C};
use crate::scenes::{
    ADDS, COMES_AGAIN, DELETES, IS_HOME_AGAIN, IS_NOT_LENT, IS_REFUSED, LENDS, LENDS_ALONG_LINKS,
    LENDS_ON, Scene, TAKES_HOME, UNLINKS,
};
use crate::stops::{Comes, Found, over_files};
use package_tables::fault::Fault;
use std::alloc::Global;
use std::test::Fail;
use store_faults::shelf::ShelfFault;
use test_values::Checked;

// What the counts of a file that stops are to show.
#[derive(Clone, Copy)]
enum Shows {
    // This log is of the package that carries the receipt: of the crashes some leave the world before and some the
    // one after.
    Either,
    // It is read before anything is committed.
    Before,
    // This store is done with before the receipt is committed, so it leaves the world before.
    NeverAfter,
    // The same of a new store, that the shelf at times has not.
    Unshelved,
    // The request changes nothing.
    Still,
    // It changes nothing, and may be answered without this file, which then stops as the world is read after it.
    Quiet,
}

fn are_shown(counts: Counts, shows: Shows) -> bool {
    match shows {
        Shows::Either => counts.before > 0 && counts.after > 0 && counts.unshelved == 0,
        Shows::Before => counts.before > 0 && counts.unshelved == 0,
        Shows::NeverAfter => counts.before > 0 && counts.after == 0 && counts.unshelved == 0,
        Shows::Unshelved => counts.before > 0 && counts.after == 0 && counts.unshelved > 0,
        Shows::Still => counts.faults > 0 && counts.unshelved == 0,
        Shows::Quiet => counts.stopped > 0 && counts.unshelved == 0,
    }
}

// With so few calls, and no fewer, the file stops after the requests before.
fn calls_before(alloc: Global, stopped: Stopped, scene: &Scene) -> Result<u64, Fault> {
    let mut low = 0u64;
    let mut high = 65_536u64;
    for _ in 0..17 {
        let calls = low.saturating_add(high) / 2;
        if low < high {
            if over_files(alloc, &stopped.fusing(calls), scene, Comes::Never)?.is_prepared {
                high = calls;
            } else {
                low = calls.saturating_add(1);
            }
        }
    }
    Ok(high)
}

// Whether nothing stops with so many calls.
fn goes_through(
    alloc: Global,
    fusing: &Fusing,
    scene: &Scene,
    both: &Both,
    counts: &mut Counts,
    checked: &mut Checked,
) -> Result<bool, Fault> {
    let found = checked_run(alloc, fusing, scene, both, counts, checked)?;
    Ok(went_through(&found, both))
}

// With one call more each time, up to the run that goes through.
fn count_stops(
    alloc: Global,
    stopped: Stopped,
    scene: &Scene,
    both: &Both,
    checked: &mut Checked,
) -> Result<Counts, Fault> {
    let mut counts = Counts::new();
    let first = calls_before(alloc, stopped, scene)?;
    for calls in first..first.saturating_add(5_000) {
        let fusing = stopped.fusing(calls);
        if goes_through(alloc, &fusing, scene, both, &mut counts, checked)? {
            return Ok(counts);
        }
        add_one(&mut counts.stopped);
    }
    Err(Fault::StoreFault)
}

// The store of which package has a file that stops, which, and what that shows.
#[derive(Clone, Copy)]
struct Stopped(u8, Stops, Shows);

impl Stopped {
    fn fusing(self, calls: u64) -> Fusing {
        Fusing::file(self.0, self.1, calls)
    }
}

fn check(
    alloc: Global,
    scene: &Scene,
    stopped: &[Stopped],
    checked: &mut Checked,
) -> Result<(), Fault> {
    let both = both_worlds(alloc, scene)?;
    check_both(alloc, &both, scene, checked);
    for stops in stopped {
        let counts = count_stops(alloc, *stops, scene, &both, checked)?;
        let is_shown = are_shown(counts, stops.2);
        checked.is(if is_shown { "shown" } else { "not shown" }, "shown");
    }
    Ok(())
}

fn holds(alloc: Global, scene: &Scene, stopped: &[Stopped]) -> Result<(), Fail> {
    let mut checked = Checked::new(alloc);
    check(alloc, scene, stopped, &mut checked)?;
    nothing_wrong(alloc, &checked)
}

#[test]
fn a_tile_is_added_while_the_log_stops(rt: HostRuntime) -> Result<(), Fail> {
    holds(rt.alloc(), &ADDS, &[Stopped(A, Stops::Log, Shows::Either)])
}

#[test]
fn a_tile_is_added_while_the_file_stops(rt: HostRuntime) -> Result<(), Fail> {
    holds(rt.alloc(), &ADDS, &[Stopped(A, Stops::Db, Shows::Before)])
}

#[test]
fn a_row_is_deleted_while_the_log_stops(rt: HostRuntime) -> Result<(), Fail> {
    holds(
        rt.alloc(),
        &DELETES,
        &[Stopped(A, Stops::Log, Shows::Either)],
    )
}

#[test]
fn a_tile_is_unlinked_while_the_file_stops(rt: HostRuntime) -> Result<(), Fail> {
    holds(
        rt.alloc(),
        &UNLINKS,
        &[Stopped(A, Stops::Db, Shows::Before)],
    )
}

#[test]
fn a_request_comes_again_while_the_log_stops(rt: HostRuntime) -> Result<(), Fail> {
    holds(
        rt.alloc(),
        &COMES_AGAIN,
        &[Stopped(A, Stops::Log, Shows::Still)],
    )
}

#[test]
fn a_deletion_is_refused_while_the_log_stops(rt: HostRuntime) -> Result<(), Fail> {
    holds(
        rt.alloc(),
        &IS_REFUSED,
        &[Stopped(A, Stops::Log, Shows::Still)],
    )
}

#[test]
fn a_strict_cut_is_lent_while_the_archive_stops(rt: HostRuntime) -> Result<(), Fail> {
    holds(
        rt.alloc(),
        &LENDS,
        &[
            Stopped(A, Stops::Log, Shows::Either),
            Stopped(A, Stops::Db, Shows::Before),
        ],
    )
}

#[test]
fn a_strict_cut_is_lent_while_the_loan_stops(rt: HostRuntime) -> Result<(), Fail> {
    holds(
        rt.alloc(),
        &LENDS,
        &[
            Stopped(B, Stops::Log, Shows::Unshelved),
            Stopped(B, Stops::Db, Shows::Unshelved),
        ],
    )
}

#[test]
fn a_cut_along_links_is_lent_while_the_archive_stops(rt: HostRuntime) -> Result<(), Fail> {
    holds(
        rt.alloc(),
        &LENDS_ALONG_LINKS,
        &[
            Stopped(A, Stops::Log, Shows::Either),
            Stopped(A, Stops::Db, Shows::Before),
        ],
    )
}

#[test]
fn a_cut_along_links_is_lent_while_the_loan_stops(rt: HostRuntime) -> Result<(), Fail> {
    holds(
        rt.alloc(),
        &LENDS_ALONG_LINKS,
        &[
            Stopped(B, Stops::Log, Shows::Unshelved),
            Stopped(B, Stops::Db, Shows::Unshelved),
        ],
    )
}

#[test]
fn a_loan_lends_while_it_stops(rt: HostRuntime) -> Result<(), Fail> {
    holds(
        rt.alloc(),
        &LENDS_ON,
        &[
            Stopped(B, Stops::Log, Shows::Either),
            Stopped(B, Stops::Db, Shows::Before),
        ],
    )
}

#[test]
fn a_loan_lends_while_its_loan_stops(rt: HostRuntime) -> Result<(), Fail> {
    holds(
        rt.alloc(),
        &LENDS_ON,
        &[
            Stopped(C, Stops::Log, Shows::Unshelved),
            Stopped(C, Stops::Db, Shows::Unshelved),
        ],
    )
}

#[test]
fn a_loan_is_taken_home_while_the_archive_stops(rt: HostRuntime) -> Result<(), Fail> {
    holds(
        rt.alloc(),
        &TAKES_HOME,
        &[
            Stopped(A, Stops::Log, Shows::Either),
            Stopped(A, Stops::Db, Shows::Before),
        ],
    )
}

#[test]
fn a_loan_is_taken_home_while_it_stops(rt: HostRuntime) -> Result<(), Fail> {
    holds(
        rt.alloc(),
        &TAKES_HOME,
        &[
            Stopped(B, Stops::Log, Shows::NeverAfter),
            Stopped(B, Stops::Db, Shows::NeverAfter),
        ],
    )
}

#[test]
fn a_split_is_refused_while_the_archive_stops(rt: HostRuntime) -> Result<(), Fail> {
    holds(
        rt.alloc(),
        &IS_NOT_LENT,
        &[
            Stopped(A, Stops::Log, Shows::Still),
            Stopped(A, Stops::Db, Shows::Still),
        ],
    )
}

#[test]
fn a_merge_comes_again_while_the_archive_stops(rt: HostRuntime) -> Result<(), Fail> {
    holds(
        rt.alloc(),
        &IS_HOME_AGAIN,
        &[
            Stopped(A, Stops::Log, Shows::Still),
            Stopped(A, Stops::Db, Shows::Quiet),
        ],
    )
}

// The shelf has no store the first time, and the world goes on as before; then it has one, and the
// request gets its receipt.
fn check_shelf(
    alloc: Global,
    why: ShelfFault,
    told: &str,
    checked: &mut Checked,
) -> Result<(), Fault> {
    let both = both_worlds(alloc, &LENDS)?;
    let fusing = Fusing::shelf(B, why);
    let mut counts = Counts::new();
    let found = checked_run(alloc, &fusing, &LENDS, &both, &mut counts, checked)?;
    checked.is(found.reply.as_str(), told);
    let goes_on = goes_on(&found, LENDS.told);
    checked.is(if goes_on { "goes on" } else { "ends" }, "goes on");
    Ok(())
}

// Whether the world could be read after the shelf had no store, and the request was told this number as it came again.
fn goes_on(found: &Found, told: i64) -> bool {
    found.number_again == told && found.was_unshelved && !found.has_failed && found.is_read
}

#[test]
fn a_cut_is_lent_when_the_shelf_has_a_store(rt: HostRuntime) -> Result<(), Fail> {
    let alloc = rt.alloc();
    let mut checked = Checked::new(alloc);
    check_shelf(alloc, ShelfFault::StoreFault, "StoreFault", &mut checked)?;
    check_shelf(alloc, ShelfFault::OutOfMemory, "OutOfMemory", &mut checked)?;
    nothing_wrong(alloc, &checked)
}
