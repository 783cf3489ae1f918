// A rehearsal whose output was written out by hand, over writers that fail, and one that is long;
// the digest is Python's `hashlib`. What else rehearsals print is in the sessions of `sheetdesk`.
use crate::endings::{End, end_text};
use crate::streams::{WHOLE, Wrote, judged_paper, paper};
use crate::texts::{GOOD, List, PRINTED, list_text};
use crate::worlds::passes;
use cli::rehearse::rehearse;
use manifest_csv::progress::Silent;
use package_tables::fault::Fault;
use std::alloc::Global;
use test_values::Checked;

// It has 300 bytes.
const OF_ONE: &str =
    "line,request,seq,refusal\n1,90000000-0000-4000-8000-000000000001,1,0\npackage a0000000-0000-4000-8000-000000000000\nkind,identity,other,zoom,column,row,x,y,code,size,fingerprint,text\ntile,00000000-0000-4000-8000-000000000001,,2,3,3,,,,1,b363ee0ecc9cf61b12ecdafd75dca2779729b4fcc5f1bd718c33aad2c94af4f8,\n";

fn rehearsed(alloc: Global, text: &str, room: usize, wrote: Wrote) -> Result<String, Fault> {
    let mut out = paper(alloc, room)?;
    let outcome = rehearse(alloc, &GOOD, text.as_bytes(), &mut out, &mut Silent);
    let ended = end_text(alloc, &End::Of(outcome))?;
    judged_paper(alloc, ended, &out, wrote)
}

fn wrong(alloc: Global) -> Result<String, Fault> {
    let mut checked = Checked::new(alloc);
    let text = list_text(alloc, List::One)?;
    for room in 0..300 {
        let ended = rehearsed(alloc, text.as_str(), room, Wrote::Front(OF_ONE, room));
        checked.told(ended, "3 |store: StoreFault\n|");
    }
    let whole = rehearsed(alloc, text.as_str(), 300, Wrote::All(OF_ONE));
    checked.told(whole, "0 ||");
    Ok(String::from_str(alloc, checked.wrong())?)
}

// A writer with every smaller room fails: in the report, in the package's line, in the manifest.
#[test]
fn writers_that_fail(rt: HostRuntime) {
    passes(&rt, wrong(rt.alloc()));
}

// A list that is long is carried out over stores in files.
fn wrong_of_long(alloc: Global) -> Result<String, Fault> {
    let mut checked = Checked::new(alloc);
    let text = list_text(alloc, List::Often)?;
    checked.told(rehearsed(alloc, text.as_str(), WHOLE, PRINTED), "0 ||");
    Ok(String::from_str(alloc, checked.wrong())?)
}

#[test]
fn a_long_list(rt: HostRuntime) {
    passes(&rt, wrong_of_long(rt.alloc()));
}
