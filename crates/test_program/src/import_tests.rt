// Imports into an archive in memory and manifests of it. Reports and manifests were written out by hand; the digests
// are Python's `hashlib`.
use crate::outputs::What;
use crate::streams::{NOTHING, Reads, WHOLE, Wrote};
use crate::texts::{List, REPORT_OF_ONE, REPORT_OF_TWO};
use crate::worlds::{Step, passes, wrong};
use package_tables::fault::Fault;
use std::alloc::Global;
use test_lists::MANIFEST_OF_THE_FIRST;

// An import that is read whole.
const fn imports(list: List) -> What {
    What::Imports(list, Reads::Whole)
}

// Nothing was carried out, though its record would be accepted.
#[test]
fn a_reader_that_fails_after_a_good_list(rt: HostRuntime) {
    let broken = What::Imports(List::One, Reads::Fails(WHOLE));
    let steps = [
        Step::Writes(broken, WHOLE, "unread", NOTHING),
        Step::Holds("0 0 0 0 0"),
    ];
    passes(&rt, wrong(rt.alloc(), steps.as_slice()));
}

#[test]
fn a_tile_of_the_greatest_size(rt: HostRuntime) {
    let manifest =
        "kind,identity,other,zoom,column,row,x,y,code,size,fingerprint,text\ntile,00000000-0000-4000-8000-000000000001,,2,3,3,,,,1048576,bfa5590c5ef51b89416f3d888ef6ade3742a1c9f64b293a4d11a6a88afdebced,\n";
    let steps = [
        Step::Writes(
            imports(List::Greatest),
            WHOLE,
            "done 1/1",
            Wrote::All(REPORT_OF_ONE),
        ),
        Step::Holds("1 0 0 0 1048576"),
        Step::Writes(What::Manifest, WHOLE, "done", Wrote::All(manifest)),
    ];
    passes(&rt, wrong(rt.alloc(), steps.as_slice()));
}

// How an import of two tiles ends whose writer took so many bytes of `REPORT_OF_TWO` and failed, and what then stands:
// a request is carried out before its line is written.
fn left(room: usize) -> (&'static str, &'static str) {
    if room < 25 {
        ("unwritten", "0 0 0 0 0")
    } else if room < 68 {
        ("unwritten", "1 0 0 0 1")
    } else {
        ("unwritten 1/2", "2 0 0 0 2")
    }
}

fn wrong_of_reports(alloc: Global) -> Result<String, Fault> {
    let mut steps = Vec::new(alloc);
    for room in 0..111 {
        let (ended, sums) = left(room);
        let front = Wrote::Front(REPORT_OF_TWO, room);
        steps.push(Step::Anew)?;
        steps.push(Step::Writes(imports(List::Two), room, ended, front))?;
        steps.push(Step::Holds(sums))?;
    }
    wrong(alloc, &steps)
}

// A writer with every smaller room fails: the header, a line at its beginning, in its middle or at its end.
#[test]
fn writers_that_fail_in_a_report(rt: HostRuntime) {
    passes(&rt, wrong_of_reports(rt.alloc()));
}

#[test]
fn a_list_again_after_a_writer_that_failed(rt: HostRuntime) {
    let whole = Wrote::All(REPORT_OF_TWO);
    let front = Wrote::Front(REPORT_OF_TWO, 30);
    let steps = [
        Step::Writes(imports(List::Two), 30, "unwritten", front),
        Step::Holds("1 0 0 0 1"),
        Step::Writes(imports(List::Two), 111, "done 1/2 2/2", whole),
        Step::Holds("2 0 0 0 2"),
    ];
    passes(&rt, wrong(rt.alloc(), steps.as_slice()));
}

// One of them is refused.
#[test]
fn each_request_is_told_once(rt: HostRuntime) {
    let report =
        "line,request,seq,refusal\n1,90000000-0000-4000-8000-000000000001,1,0\n2,90000000-0000-4000-8000-000000000002,2,0\n3,90000000-0000-4000-8000-000000000003,0,20\n4,90000000-0000-4000-8000-000000000004,3,0\n";
    let told = "done 1/4 2/4 3/4 4/4";
    let steps = [Step::Writes(imports(List::Lends), WHOLE, told, Wrote::All(report))];
    passes(&rt, wrong(rt.alloc(), steps.as_slice()));
}

fn wrong_of_manifests(alloc: Global) -> Result<String, Fault> {
    let report = Wrote::All(REPORT_OF_ONE);
    let whole = Wrote::All(MANIFEST_OF_THE_FIRST);
    let mut steps = Vec::new(alloc);
    steps.push(Step::Writes(imports(List::One), WHOLE, "done 1/1", report))?;
    steps.push(Step::Writes(What::Manifest, 187, "done", whole))?;
    for room in 0..187 {
        let front = Wrote::Front(MANIFEST_OF_THE_FIRST, room);
        steps.push(Step::Writes(What::Manifest, room, "unwritten", front))?;
    }
    steps.push(Step::Writes(What::Manifest, 187, "done", whole))?;
    wrong(alloc, &steps)
}

// A second time it is the same; a writer with any room smaller than its 187 bytes fails.
#[test]
fn a_manifest_and_writers_that_fail(rt: HostRuntime) {
    passes(&rt, wrong_of_manifests(rt.alloc()));
}

// The same as of a list that is read once.
#[test]
fn a_list_that_is_read_twice(rt: HostRuntime) {
    let twice = What::ImportsTwice(List::Two, List::Two);
    let steps = [
        Step::Writes(twice, WHOLE, "done 1/2 2/2", Wrote::All(REPORT_OF_TWO)),
        Step::Holds("2 0 0 0 2"),
    ];
    passes(&rt, wrong(rt.alloc(), steps.as_slice()));
}

// A list that is shorter at the second reading, and one that is longer: what both have was carried out.
#[test]
fn a_list_that_changes_between_two_readings(rt: HostRuntime) {
    let report = Wrote::All(REPORT_OF_ONE);
    let shorter = What::ImportsTwice(List::Two, List::One);
    let longer = What::ImportsTwice(List::One, List::Two);
    let steps = [
        Step::Writes(shorter, WHOLE, "changed after 1 1/2", report),
        Step::Holds("1 0 0 0 1"),
        Step::Anew,
        Step::Writes(longer, WHOLE, "changed after 1 1/1", report),
        Step::Holds("1 0 0 0 1"),
    ];
    passes(&rt, wrong(rt.alloc(), steps.as_slice()));
}

// No list at the first reading, or at the second: nothing was carried out.
#[test]
fn a_list_that_is_none_at_a_reading(rt: HostRuntime) {
    let steps = [
        Step::Writes(
            What::ImportsTwice(List::Headless, List::One),
            WHOLE,
            "unread",
            NOTHING,
        ),
        Step::Writes(
            What::ImportsTwice(List::One, List::Headless),
            WHOLE,
            "unread",
            NOTHING,
        ),
        Step::Holds("0 0 0 0 0"),
    ];
    passes(&rt, wrong(rt.alloc(), steps.as_slice()));
}
