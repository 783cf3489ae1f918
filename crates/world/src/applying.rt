//! One request over the members of a world: what it comes to is decided, and where a change is due it is carried out.
ghost use Rattle.std.specs.Prelude.{◌≡◌, ℕ, ◌≤◌, ◌<◌, ◌+◌, [], ◌∷◌, IsTrue, IfOk, OnOk};
ghost use Rattle.std.specs.Prelude.{IfSome, None, Some};
ghost use Rattle.std.specs.Prelude.{length, vec_len};
ghost use Rattle.std.specs.Prelude.{vec_capacity};
ghost use Rattle.sheet_types.specs.Matrix.{is_good_frame};
ghost use Rattle.sheet_types.specs.Refuse.{greatest_receipts};
ghost use Rattle.sheet_types.specs.World.{World};
ghost use Rattle.world_decisions.specs.Deciding.{HasPlace, child_asked};
ghost use Rattle.world_members.specs.Laws.{package_of};
ghost use Rattle.world_members.specs.Members.{AllRest, AllClean, AllOpen, AllStay, AreMembers};
ghost use Rattle.world_members.specs.Turning.{IsDue};
ghost use Rattle.world_changes.specs.Carries.{Carries, ServesAll, OfEachDue, OfEachSeen};
ghost use Rattle.world_changes.specs.Dating.{AreDated};
ghost use Rattle.world_changes.specs.Leaving.{IsChildBeside};
ghost use Rattle.world_changes.specs.Writing.{WritesTwoAtMost};
ghost use Rattle.world.specs.Creating.{HasRoomFor};
ghost use Rattle.world_loans.specs.Loans.{HasLendingPlace, HasReturnPlace, IsLent, IsReturned};
ghost use Rattle.world_loans.specs.ServeFaults.{CountsShelf};
ghost use Rattle.world.specs.Changes.{Changes};
ghost use Rattle.world.specs.Dates.{Dates, DatesHome, TriesReceipt};
ghost use Rattle.world.specs.Worlds.{AddsNone};
ghost use Rattle.world.specs.Asked.{ComeHome, HasUuidAt, IsNoPackage, ServesChild, ServesWith, UsesChild};
ghost use Rattle.world.specs.Asked.{child_returned};
ghost use Rattle.world_decisions.specs.declared.deciding.Decision.TheVariants.{ChangeDue};

use crate::noting::decide_and_note;
use package_tables::fault::Fault;
use register_lending::turn_fault::TurnFault;
use sheet_types::command::{Command, Request};
use sheet_types::frame::Frame;
use sheet_types::receipt::Receipt;
use sheet_types::refusal::Refusal;
use sqlite::{Alter, Connection};
use std::alloc::Global;
use store_shelf::shelf::Shelf;
use uuid::Uuid;
use world_changes::merging::merge_at;
use world_changes::splitting::{child_store, lend_and_place};
use world_changes::turning::turn_at;
use world_decisions::deciding::{Change, Decision};
use world_known::known::Known;
use world_loans::loans::{Lending, Returning, ServeFault};
use world_members::members::Member;

/// Makes room for one more member and its store.
fn make_room<S: Alter + Drop>(
    members: &mut Vec<Member<S>>,
    strays: &mut Vec<Connection<S>>,
) -> Result<(), Fault>
    requires { HasRoomFor members.old.items strays.old }
    ensures members { members.new.items ≡ members.old.items }
    ensures strays { strays.new.items ≡ strays.old.items }
    ensures still { HasRoomFor members.new.items strays.new }
    ensures member { OnOk result (vec_len members.new < vec_capacity members.new) }
    ensures stray { OnOk result (vec_len members.new + vec_len strays.new + 1 ≤ vec_capacity strays.new) }
{
    members.reserve(1)?;
    strays.reserve(members.len() + 1)?;
    Ok(())
}

/// Carries out a split that is due, with the room for the child made before anything is written.
/// The count of receipts goes on by the one that is entered. Where it fails, a store is given back
/// to the shelf as that of the child, or is kept among the strays.
fn carry_out_split<S: Alter + Drop, H: Shelf<S>>(
    members: &mut Vec<Member<S>>,
    strays: &mut Vec<Connection<S>>,
    frame: &Frame,
    count: &mut u64,
    alloc: Global,
    shelf: &mut H,
    due: Lending,
) -> Result<Receipt, ServeFault>
    requires rests { AllRest S.Store members.old.items }
    requires good { IsTrue (is_good_frame frame.now) }
    requires place { HasLendingPlace due (length members.old.items) count.old }
    requires none { strays.old.items ≡ [] }
    requires room { HasRoomFor members.old.items strays.old }
    ensures carries { (it : Carries S.Store (λ w next. (frame.now ≡ w.frame) × IsLent w next due) due.receipt
        members.old.items members.new.items strays.new.items count.old count.new result) × (it.gone ≡ []) }
    ensures writes { WritesTwoAtMost S.Store (Some due.child) None members.old.items members.new.items [] }
    ensures room { HasRoomFor members.new.items strays.new }
    ensures shelf { CountsShelf result (H.failures_of shelf.old) (H.failures_of shelf.new) }
    ensures clean { AllClean S.Store members.new.items → AllClean S.Store members.old.items }
    ensures dated { OnOk result (AllClean S.Store members.new.items → (w next : World) → frame.now ≡ w.frame
        → AreMembers S.Store members.old.items count.old w → IsLent w next due
        → AreDated S.Store w.frame due.receipt.at (due.parent ∷ due.child ∷ []) members.new.items) }
    ensures uses { UsesChild S.Store H.asks H.takes H.failures_of frame.now due members.old.items members.new.items
        strays.new.items result shelf.old shelf.new }
{
    make_room(members, strays)?;
    let child = child_store(members, shelf, alloc, frame, &due)?;
    let receipt = lend_and_place(members, strays, shelf, due, child)?;
    *count = receipt.seq;
    Ok(receipt)
}

/// The package that a command takes home, where the member at this place is its own.
fn child_at<S: Alter + Drop>(members: &[Member<S>], at: usize, command: &Command) -> Option<Uuid>
    requires { at < length members.now }
    ensures { IfSome result (λ uuid. HasUuidAt members.now at uuid × (child_returned command.now ≡ Some uuid)) }
{
    let Command::Merge { child, .. } = command else {
        return None;
    };
    let uuid = members[at].uuid;
    if uuid == *child { Some(uuid) } else { None }
}

/// Carries out a merge that is due. The count of receipts goes on by the one that is entered. The
/// child's store is given back after the commit: its package is live no more.
///
/// What a shelf takes back it may remove. So it is given the store of the package that the command
/// names, and no other, even where a store told something false.
fn carry_out_merge<S: Alter + Drop, H: Shelf<S>>(
    members: &mut Vec<Member<S>>,
    count: &mut u64,
    shelf: &mut H,
    command: &Command,
    due: Returning,
) -> Result<Receipt, ServeFault>
    requires rests { AllRest S.Store members.old.items }
    requires place { HasReturnPlace due (length members.old.items) count.old }
    ensures carries { (it : Carries S.Store (λ w next. IsReturned w next due) due.receipt
        members.old.items members.new.items [] count.old count.new result)
        × ComeHome S.Store H.takes members.old.items
        (λ uuid. (child_returned command.now ≡ Some uuid)
        × OfEachDue S.Store (λ w next. IsReturned w next due) members.old.items count.old
        (λ w next. IsNoPackage next uuid))
        it.gone shelf.old shelf.new
        × WritesTwoAtMost S.Store (child_asked command.now) (child_returned command.now)
        members.old.items members.new.items it.gone
        × DatesHome S.Store due command.now members.old.items members.new.items count.old it.gone result }
    ensures shorter { length members.new.items ≤ length members.old.items }
    ensures shelf { CountsShelf result (H.failures_of shelf.old) (H.failures_of shelf.new) }
{
    let Some(uuid) = child_at(members.as_slice(), due.from, command) else {
        return Err(ServeFault::Turn(TurnFault::Before(Fault::StoreFault)));
    };
    let (receipt, child) = merge_at(members, due)?;
    *count = receipt.seq;
    shelf.retire(uuid, child.into_store());
    Ok(receipt)
}

/// Carries out a change that is due. The count of receipts goes on by the one that is entered with it.
fn carry_out_change<S: Alter + Drop>(
    members: &mut Vec<Member<S>>,
    count: &mut u64,
    command: &Command,
    change: Change,
) -> Result<Receipt, TurnFault>
    requires rests { AllRest S.Store members.old.items }
    requires place { HasPlace members.old.items count.old (ChangeDue change) }
    ensures changes { Changes S.Store change command.now
        members.old.items members.new.items count.old count.new result }
    ensures dated { OnOk result (AllClean S.Store members.new.items → (w : World)
        → AreMembers S.Store members.old.items count.old w
        → IsDue w change.at change.receipt command.now change.sums
        → AreDated S.Store w.frame change.receipt.at (package_of command.now ∷ []) members.new.items) }
    ensures long { length members.new.items ≡ length members.old.items }
{
    turn_at(members, change.at, command, &change.receipt, change.sums)?;
    *count = change.receipt.seq;
    Ok(change.receipt)
}

/// Answers one request, or carries it out. The count is that of all receipts, and what they name is
/// known. A refusal is a reply; what is an error here is a want of memory, a store that failed, or
/// a shelf that had none.
pub(crate) fn serve<S: Alter + Drop, H: Shelf<S>>(
    members: &mut Vec<Member<S>>,
    strays: &mut Vec<Connection<S>>,
    known: &mut Known,
    frame: &Frame,
    count: &mut u64,
    alloc: Global,
    request: &Request,
    shelf: &mut H,
) -> Result<Result<Receipt, Refusal>, ServeFault>
    requires rests { AllRest S.Store members.old.items }
    requires good { IsTrue (is_good_frame frame.now) }
    requires counted { count.old ≤ greatest_receipts }
    requires none { strays.old.items ≡ [] }
    requires room { HasRoomFor members.old.items strays.old }
    ensures serves { (it : ServesAll S.Store frame.now request.now
        members.old.items members.new.items strays.new.items known.old known.new count.old count.new result)
        × ServesWith S.Store H.asks H.takes frame.now request.now members.old.items members.new.items known.old
        count.old
        it.gone shelf.old shelf.new
        × WritesTwoAtMost S.Store (child_asked request.now.command) (child_returned request.now.command)
        members.old.items members.new.items it.gone
        × Dates S.Store frame.now request.now members.old.items members.new.items known.old count.old count.new
        it.gone result }
    ensures tried { TriesReceipt S.Store frame.now request.now members.old.items members.new.items known.old
        count.old result }
    ensures child { ServesChild S.Store H.asks H.takes H.failures_of (child_asked request.now.command)
        (λ child trees. AllClean S.Store members.new.items → OfEachSeen S.Store frame.now known.old members.old.items
        count.old
        (λ w. AllOpen S.Store members.old.items → IsChildBeside w.frame w.packages child trees))
        strays.new.items result shelf.old shelf.new }
    ensures reads { IfOk result (λ reply. AddsNone reply count.old count.new
        → AllStay S.Store members.old.items members.new.items) }
    ensures unused { IfOk result (λ reply. AddsNone reply count.old count.new → shelf.new ≡ shelf.old) }
    ensures room { HasRoomFor members.new.items strays.new }
    ensures shelf { CountsShelf result (H.failures_of shelf.old) (H.failures_of shelf.new) }
{
    match decide_and_note(members, known, frame, *count, alloc, request)? {
        Decision::Answered(reply) => Ok(reply),
        Decision::ChangeDue(change) => {
            let receipt = carry_out_change(members, count, &request.command, change)?;
            Ok(Ok(receipt))
        }
        Decision::SplitDue(due) => {
            let receipt = carry_out_split(members, strays, frame, count, alloc, shelf, due)?;
            Ok(Ok(receipt))
        }
        Decision::MergeDue(due) => {
            let receipt = carry_out_merge(members, count, shelf, &request.command, due)?;
            Ok(Ok(receipt))
        }
    }
}
