//! What was seen of stores, judged: the frame, the verdict of each and what their receipts name, or
//! the first of the nine faults.
ghost use Rattle.std.specs.Prelude.{◌≡◌, ◌≤◌, ◌⊎◌, List, length, IfOk, IfErr, IsTrue};
ghost use Rattle.sheet_laws.specs.Laws.{StoreSight};
ghost use Rattle.opening_verdict.specs.Views.{AreSeenAs, IsFaultOf};
ghost use Rattle.sheet_types.specs.Matrix.{is_good_frame};
ghost use Rattle.sheet_types.specs.Refuse.{greatest_receipts};
ghost use Rattle.world_changes.specs.Leaving.{AreAtRest, AreClean};
ghost use Rattle.opening_stores.specs.Stores.{AreAllKeyed, AreOnlyRead, AreOpenWhereClean};
ghost use Rattle.opening_stores.specs.Judged.{archive_seen, AreJudged, IsFaultAt, IsJudgedOf, IsWant, said_root};

use crate::remembering::known_of;
use crate::surveying::survey_all;
use crate::watching::Watcher;
use matrix_rules::check::FrameRules;
use opening_faults::faults::RecoverFault;
use opening_verdict::judging::judge_all;
use opening_verdict::seen::StoreSeen;
use opening_verdict::verdict::Verdict;
use package_tables::fault::Fault;
use sheet_types::checks::GREATEST_RECEIPTS;
use sheet_types::frame::Frame;
use sqlite::{Alter, Connection};
use std::alloc::Global;
use world_known::known::Known;

/// What all looks came to.
#[derive(Drop)]
pub struct Judged {
    /// The frame of the archive.
    pub frame: Frame,
    /// What the nine conditions say of all stores.
    pub verdict: Verdict,
    /// What their receipts name.
    pub known: Known,
}

/// A store that gives out, as a fault of opening.
pub(crate) fn fault_of(fault: Fault) -> RecoverFault
    ensures { IsWant result }
{
    match fault {
        Fault::OutOfMemory => RecoverFault::OutOfMemory,
        Fault::StoreFault => RecoverFault::StoreFault,
    }
}

// Whether a store says that it is an archive's.
fn says_root(store: &StoreSeen) -> bool
    ensures { result ≡ said_root store.now }
{
    match store.sight.head {
        Some(head) => head.depth == 0,
        None => false,
    }
}

// The frame of the first store that says so.
fn archive_frame(seen: &[StoreSeen]) -> Option<Frame>
    ensures { result ≡ archive_seen seen.now }
{
    for store in seen {
        if says_root(store) {
            return Some(store.sight.frame);
        }
    }
    None
}

// A frame that is good and a number of receipts that a world may have; what is judged has both.
fn is_in_bounds(frame: &Frame, count: u64) -> bool
    ensures good { IsTrue result → IsTrue (is_good_frame frame.now) }
    ensures low { IsTrue result → count ≤ greatest_receipts }
{
    frame.check().is_ok() && count <= GREATEST_RECEIPTS
}

// What was seen of all stores, judged.
fn judge_seen(alloc: Global, seen: Vec<StoreSeen>) -> Result<Judged, RecoverFault>
    ensures is { IfOk result (λ judged. IsJudgedOf seen.items judged.frame judged.verdict judged.known) }
    ensures good { IfOk result (λ judged. IsTrue (is_good_frame judged.frame)) }
    ensures low { IfOk result (λ judged. judged.verdict.count ≤ greatest_receipts) }
    ensures fault { IfErr result (λ fault. IsWant fault ⊎ ((views : List StoreSight) → AreSeenAs seen.items views
        → IsFaultOf views fault)) }
{
    let frame = archive_frame(&seen);
    let known = known_of(alloc, &seen)?;
    let verdict = judge_all(alloc, seen)?;
    // A verdict without an archive, or one out of these bounds, is never given.
    let Some(frame) = frame else {
        return Err(RecoverFault::StoreFault);
    };
    if !is_in_bounds(&frame, verdict.count) {
        return Err(RecoverFault::StoreFault);
    }
    Ok(Judged {
        frame,
        verdict,
        known,
    })
}

/// All stores looked at, and judged. They are only read. The watcher is told how many of them were looked at.
///
/// # Errors
///
/// The first of the nine faults whose condition holds, with its least package or identity; or want
/// of memory, or a store that failed.
pub fn judge_stores<S: Alter + Drop, W: Watcher>(
    alloc: Global,
    stores: &mut Vec<Connection<S>>,
    watcher: &mut W,
) -> Result<Judged, RecoverFault>
    requires rests { AreAtRest S.Store stores.old.items }
    requires keyed { AreAllKeyed S.Store stores.old.items }
    ensures read { AreOnlyRead S.Store stores.old.items stores.new.items }
    ensures rests { AreAtRest S.Store stores.new.items }
    ensures opens { IfOk result (λ _. AreOpenWhereClean S.Store stores.new.items) }
    ensures judged { IfOk result (λ judged. AreClean S.Store stores.new.items
        → AreJudged S.Store stores.new.items judged.frame judged.verdict judged.known) }
    ensures good { IfOk result (λ judged. IsTrue (is_good_frame judged.frame)) }
    ensures low { IfOk result (λ judged. judged.verdict.count ≤ greatest_receipts) }
    ensures fault { IfErr result (λ fault. AreClean S.Store stores.new.items
        → IsFaultAt S.Store stores.new.items fault) }
{
    match survey_all(stores, alloc, watcher) {
        Ok(seen) => judge_seen(alloc, seen),
        Err(fault) => Err(fault_of(fault)),
    }
}

/// Whether there is one verdict a store. A judge of clean disks always gives one.
pub fn is_of_all(judged: &Judged, count: usize) -> bool
    ensures { IsTrue result → length judged.now.verdict.kept.items ≡ count }
{
    judged.verdict.kept.len() == count
}
