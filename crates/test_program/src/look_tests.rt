// Requests, receipts, exports and maps over streams that fail. What they write where nothing fails is in the sessions.
use crate::outputs::What;
use crate::streams::{NOTHING, Reads, WHOLE, Wrote};
use crate::texts::{ADD, RECEIPT_LINE};
use crate::worlds::{Step, passes, wrong};

// A reader that fails after a whole request, and writers that fail at a receipt, an export and a map.
#[test]
fn streams_that_fail(rt: HostRuntime) {
    let whole = What::Applies(ADD, Reads::Whole);
    let broken = What::Applies(ADD, Reads::Fails(WHOLE));
    let front = Wrote::Front(RECEIPT_LINE, 20);
    let steps = [
        Step::Writes(broken, WHOLE, "1 refused: body\n||", NOTHING),
        Step::Holds("0 0 0 0 0"),
        Step::Writes(whole, 20, "3 |store: StoreFault\n|", front),
        // It stands.
        Step::Writes(whole, WHOLE, "0 ||", Wrote::All(RECEIPT_LINE)),
        Step::Holds("1 0 0 0 1"),
        Step::Writes(What::Receipt, 20, "3 |store: StoreFault\n|", front),
        Step::Writes(What::Receipt, WHOLE, "0 ||", Wrote::All(RECEIPT_LINE)),
        Step::Shortly(What::Export, "3 |store: StoreFault\n|"),
        Step::Shortly(What::Map, "3 |store: StoreFault\n|"),
    ];
    passes(&rt, wrong(rt.alloc(), steps.as_slice()));
}
