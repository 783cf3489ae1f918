// What is written of an archive of more than 16 MiB, whose contents are read one at a time. Lengths and digests are the
// second machine's (samples/large_package.py).
use crate::outputs::What;
use crate::streams::{GREAT, Reads, Wrote};
use crate::texts::List;
use crate::worlds::{Step, passes, wrong};

const MANIFEST: Wrote = Wrote::Sha256(
    2_209,
    "9d818880fcc853b37df24ff1384818a815d3547aafb0fddeb344f4a2b49f7204",
);

const EXPORT: Wrote = Wrote::Sha256(
    35_668_765,
    "1b6c91b736699106e7ccc7ff40ffdb440b17d886b6f72953d893b421b53b578f",
);

const MAP: Wrote = Wrote::Sha256(
    2_704,
    "ee8540d6537b232acaee72e9bde1f72b36578c201ca9deecbe13cdd66e04eb8a",
);

#[test]
fn a_package_of_many_bytes(rt: HostRuntime) {
    let told =
        "done 1/17 2/17 3/17 4/17 5/17 6/17 7/17 8/17 9/17 10/17 11/17 12/17 13/17 14/17 15/17 16/17 17/17";
    let report = Wrote::Ends("line,request,seq,refusal\n1,", ",17,0\n");
    let steps = [
        Step::Writes(What::Imports(List::Many, Reads::Whole), GREAT, told, report),
        Step::Holds("17 0 0 0 17825792"),
        Step::Writes(What::Manifest, GREAT, "done", MANIFEST),
        Step::Writes(What::Export, GREAT, "0 ||", EXPORT),
        Step::Shortly(What::Export, "3 |store: StoreFault\n|"),
        Step::Writes(What::Map, GREAT, "0 ||", MAP),
    ];
    passes(&rt, wrong(rt.alloc(), steps.as_slice()));
}
