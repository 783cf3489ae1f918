//! What a request comes to, and what it names noted before anything is written.
ghost use Rattle.std.specs.Prelude.{◌≤◌, IsTrue, IfOk, OnOk};
ghost use Rattle.sheet_types.specs.Matrix.{is_good_frame};
ghost use Rattle.sheet_types.specs.Refuse.{greatest_receipts};
ghost use Rattle.world_known.specs.Known.{Grows};
ghost use Rattle.world_queries.specs.Asking.{AsksAll};
ghost use Rattle.world_decisions.specs.Deciding.{IsOf, IsNoted, DecidesWhere, HasPlace, child_asked, Makes};
ghost use Rattle.world_members.specs.Members.{AllRest};

use package_tables::fault::Fault;
use sheet_types::command::{Command, Request};
use sheet_types::frame::Frame;
use sqlite::Alter;
use std::alloc::{AllocError, Global};
use world_decisions::deciding::{Decision, decide, package_of};
use world_known::known::Known;
use world_members::members::Member;

/// Notes what the receipt of what is due names. It is entered in the package that the command changes.
fn note_due(known: &mut Known, command: &Command, decision: &Decision) -> Result<(), AllocError>
    ensures grows { Grows known.old known.new }
    ensures noted { OnOk result (IsNoted known.new decision.now) }
{
    match decision {
        Decision::Answered(_) => Ok(()),
        Decision::ChangeDue(change) => known.note(&change.receipt, package_of(command)),
        Decision::SplitDue(due) => known.note(&due.receipt, package_of(command)),
        Decision::MergeDue(due) => known.note(&due.receipt, package_of(command)),
    }
}

/// What a request comes to, as `decide` tells it. What the receipt of what is due names is known
/// then, before the first write, so that no memory is wanted once the receipt stands; if it comes
/// to no receipt, that more is known than was named does no harm.
///
/// # Errors
///
/// Want of memory, or a store that failed. Nothing is changed then, and what was known still is.
pub(crate) fn decide_and_note<S: Alter + Drop>(
    members: &mut Vec<Member<S>>,
    known: &mut Known,
    frame: &Frame,
    count: u64,
    alloc: Global,
    request: &Request,
) -> Result<Decision, Fault>
    requires rests { AllRest S.Store members.old.items }
    requires good { IsTrue (is_good_frame frame.now) }
    requires small { count ≤ greatest_receipts }
    ensures asks { AsksAll S.Store (DecidesWhere known.old (IsOf frame.now count) request.now)
        members.old.items members.new.items result }
    ensures place { IfOk result (λ decision. HasPlace members.new.items count decision) }
    ensures makes { IfOk result (λ decision. Makes (child_asked request.now.command) decision) }
    ensures grows { Grows known.old known.new }
    ensures noted { IfOk result (λ decision. IsNoted known.new decision) }
{
    let decision = decide(members, known, frame, count, alloc, request)?;
    note_due(known, &request.command, &decision)?;
    Ok(decision)
}
