//! What a request comes to before anything is written: the reply, or the change that is due. The
//! members are read in the order in which the reasons are told, and no further than the first that
//! holds.
ghost use Rattle.std.specs.Prelude.{◌≡◌, ◌<◌, ◌≤◌, ◌+◌, IsTrue, None, Ok, Err, IfOk, length};
ghost use Rattle.std.specs.Prelude.{bytes_eq, false};
ghost use Rattle.std.specs.Prelude.{if◌then◌else◌};
ghost use Rattle.std.specs.Option.{SomeIff, option_map_or};
ghost use Rattle.sheet_types.specs.Custody.{is_used};
ghost use Rattle.sheet_types.specs.Lines.{HasTypes};
ghost use Rattle.sheet_types.specs.Matrix.{is_good_frame};
ghost use Rattle.sheet_types.specs.Refuse.{identity_used, greatest_receipts};
ghost use Rattle.sheet_types.specs.Step.{receipt_of};
ghost use Rattle.sheet_types.specs.Texts.{line};
ghost use Rattle.sheet_types.specs.World.{World};
ghost use Rattle.sheet_types.specs.declared.refusal.Refusal.TheVariants.{IdReused};
ghost use Rattle.world_known.specs.Known.{Knows};
ghost use Rattle.world_queries.specs.Asking.{AsksAll};
ghost use Rattle.world_queries.specs.Sums.{CanCount};
ghost use Rattle.world_queries.specs.TooMany.{leaves_too_many};
ghost use Rattle.world_decisions.specs.Deciding.{IsOf, IsNewTo, IsNewChange, HasAt, IsPlaced, refusal_before, Decides};
ghost use Rattle.world_decisions.specs.Deciding.{DecidesWhere, HasPlace, child_asked, Makes, MakesNone};
ghost use Rattle.world_members.specs.Laws.{ChangesOnePackage, package_of};
ghost use Rattle.world_members.specs.Members.{AllRest, AreMembers};
ghost use Rattle.world_members.specs.Steps.{sums_after};

use crate::deciding_merges::decide_merge;
use crate::deciding_splits::{Asked, decide_split};
use identity_register::fitting::fits;
use package_tables::fault::Fault;
use sheet_types::command::{Command, Request};
use sheet_types::frame::Frame;
use sheet_types::lines::line;
use sheet_types::receipt::{Receipt, Sums};
use sheet_types::refusal::Refusal;
use sqlite::Alter;
use std::alloc::Global;
use uuid::Uuid;
use world_known::known::Known;
use world_loans::loans::{Lending, Returning};
use world_members::members::Member;
use world_queries::asking::place_of;
use world_queries::asking_one::{refusal_at, thing_moved};
use world_queries::recalling::{find_kept, was_used};
use world_queries::receipts::receipt_over;
use world_queries::sums::{sums_after, sums_moved};
use world_queries::texts::text_refusal;
use world_queries::too_many::is_too_many;

/// A change that is due: the place of the member whose package changes, the receipt that is the
/// reply, and what the package holds after it.
#[derive(Drop)]
pub struct Change {
    /// Where the member stands.
    pub at: usize,
    /// The reply.
    pub receipt: Receipt,
    /// What the package holds after the change.
    pub sums: Sums,
}

/// What a request comes to. Where it is answered, nothing is to be changed.
#[derive(Drop)]
pub enum Decision {
    /// The reply: a kept receipt, or a refusal.
    Answered(Result<Receipt, Refusal>),
    /// The change of one package that is to be carried out.
    ChangeDue(Change),
    /// The split that is.
    SplitDue(Lending),
    /// The merge that is.
    MergeDue(Returning),
}

/// The package that a command changes.
pub fn package_of(command: &Command) -> Uuid
    ensures { result ≡ package_of command.now }
{
    match command {
        Command::Add { package, .. }
        | Command::Delete { package, .. }
        | Command::Link { package, .. }
        | Command::Unlink { package, .. }
        | Command::Split { package, .. } => *package,
        Command::Merge { into, .. } => *into,
    }
}

/// The reply to a request that came before: the receipt that is kept for it, if it is of the same line.
fn repeat_reply(
    alloc: Global,
    receipt: Receipt,
    command: &Command,
) -> Result<Result<Receipt, Refusal>, Fault>
    ensures { IfOk result
        (λ reply. reply ≡ (if bytes_eq receipt.line (line command.now) then Ok receipt else Err IdReused)) }
{
    let Ok(own) = line(alloc, command) else {
        return Err(Fault::OutOfMemory);
    };
    if receipt.line.is_text(own.as_str()) {
        Ok(Ok(receipt))
    } else {
        Ok(Err(Refusal::IdReused))
    }
}

/// The identity that a command brings in, if it brings one.
fn new_identity(command: &Command) -> Option<Uuid>
    ensures { (w : World) → identity_used w command.now ≡ option_map_or (is_used w) result false }
{
    match command {
        Command::Add { identity, .. } => Some(*identity),
        Command::Delete { .. }
        | Command::Link { .. }
        | Command::Unlink { .. }
        | Command::Split { .. }
        | Command::Merge { .. } => None,
    }
}

/// Whether the identity that a command brings in was ever used.
fn is_used<S: Alter + Drop>(
    members: &mut Vec<Member<S>>,
    known: &Known,
    command: &Command,
) -> Result<bool, Fault>
    requires { AllRest S.Store members.old.items }
    ensures { AsksAll S.Store (λ w found. Knows known.now w → found ≡ identity_used w command.now)
        members.old.items members.new.items result }
{
    match new_identity(command) {
        Some(identity) => was_used(members, known, identity),
        None => Ok(false),
    }
}

// The values of a command that changes one package are those of their types.
fn has_types(command: &Command)
    ensures { ChangesOnePackage command.now → HasTypes command.now }
{
    match command {
        Command::Add {
            package,
            identity,
            ..
        }
        | Command::Delete { package, identity } => {
            fits(*package);
            fits(*identity);
        }
        Command::Link {
            package,
            base,
            other,
            ..
        }
        | Command::Unlink {
            package,
            base,
            other,
            ..
        } => {
            fits(*package);
            fits(*base);
            fits(*other);
        }
        Command::Split { .. } | Command::Merge { .. } => {}
    }
}

/// Why a request whose package stands at a place is refused, but for what it would leave: for its
/// text, else for a used identity, else by its package.
fn refused_before<S: Alter + Drop>(
    members: &mut Vec<Member<S>>,
    known: &Known,
    at: usize,
    frame: &Frame,
    request: &Request,
) -> Result<Option<Refusal>, Fault>
    requires within { at < length members.old.items }
    requires rests { AllRest S.Store members.old.items }
    requires good { IsTrue (is_good_frame frame.now) }
    ensures { AsksAll S.Store
        (λ w found. Knows known.now w → HasAt frame.now at (package_of request.now.command) w
        → found ≡ refusal_before w request.now)
        members.old.items members.new.items result }
{
    if let Some(why) = text_refusal(request) {
        return Ok(Some(why));
    }
    if is_used(members, known, &request.command)? {
        return Ok(Some(Refusal::IdentityUsed));
    }
    refusal_at(members, at, frame, &request.command)
}

/// What the package of the member at a place then holds, if that can be counted and leaves not too many.
fn sums_within<S: Alter + Drop>(
    members: &[Member<S>],
    at: usize,
    count: u64,
    command: &Command,
    some: Sums,
    held: Sums,
) -> Option<Sums>
    ensures { SomeIff result
        (CanCount command.now some held
        × (leaves_too_many members.now at (sums_after command.now some held) count ≡ false))
        (sums_after command.now some held) }
{
    let Some(sums) = sums_after(command, some, held) else {
        return None;
    };
    if is_too_many(members, at, sums, count) {
        return None;
    }
    Some(sums)
}

/// What a request that is not refused before comes to by what it would leave: too many, or the
/// change is due with this receipt.
fn decide_by_sums<S: Alter + Drop>(
    members: &[Member<S>],
    at: usize,
    count: u64,
    request: &Request,
    receipt: Receipt,
) -> Decision
    requires within { at < length members.now }
    requires number { receipt.seq ≡ count + 1 }
    ensures decides { (w : World) → AreMembers S.Store members.now count w → IsPlaced w.frame count at request.now w
        → refusal_before w request.now ≡ None → receipt ≡ receipt_of w request.now
        → Decides w request.now result }
    ensures place { HasPlace members.now count result }
    ensures makes { MakesNone result }
{
    fits(request.id);
    has_types(&request.command);
    let moved = sums_moved(&receipt);
    match sums_within(
        members,
        at,
        count,
        &request.command,
        moved,
        members[at].sums,
    ) {
        None => Decision::Answered(Err(Refusal::TooMany)),
        Some(sums) => Decision::ChangeDue(Change { at, receipt, sums }),
    }
}

/// The same, with the receipt to be made. A store that has no item for a delete that it did not refuse has failed.
fn decide_by_receipt<S: Alter + Drop>(
    members: &mut Vec<Member<S>>,
    at: usize,
    count: u64,
    alloc: Global,
    request: &Request,
) -> Result<Decision, Fault>
    requires within { at < length members.old.items }
    requires rests { AllRest S.Store members.old.items }
    requires small { count ≤ greatest_receipts }
    ensures asks { AsksAll S.Store
        (λ w decision. IsPlaced w.frame count at request.now w → refusal_before w request.now ≡ None
        → Decides w request.now decision)
        members.old.items members.new.items result }
    ensures place { IfOk result (λ decision. HasPlace members.new.items count decision) }
    ensures makes { IfOk result MakesNone }
{
    let Some(thing) = thing_moved(members, at, &request.command)? else {
        return Err(Fault::StoreFault);
    };
    let Ok(receipt) = receipt_over(alloc, count + 1, request, thing) else {
        return Err(Fault::OutOfMemory);
    };
    Ok(decide_by_sums(members.as_slice(), at, count, request, receipt))
}

/// What a new request comes to whose package stands at a place.
fn decide_at<S: Alter + Drop>(
    members: &mut Vec<Member<S>>,
    known: &Known,
    at: usize,
    frame: &Frame,
    count: u64,
    alloc: Global,
    request: &Request,
) -> Result<Decision, Fault>
    requires within { at < length members.old.items }
    requires rests { AllRest S.Store members.old.items }
    requires good { IsTrue (is_good_frame frame.now) }
    requires small { count ≤ greatest_receipts }
    ensures asks { AsksAll S.Store (DecidesWhere known.now (IsPlaced frame.now count at request.now) request.now)
        members.old.items members.new.items result }
    ensures place { IfOk result (λ decision. HasPlace members.new.items count decision) }
    ensures makes { IfOk result MakesNone }
{
    if let Some(why) = refused_before(members, known, at, frame, request)? {
        return Ok(Decision::Answered(Err(why)));
    }
    decide_by_receipt(members, at, count, alloc, request)
}

/// What a request of the commands that change one package comes to that did not come before.
fn decide_change<S: Alter + Drop>(
    members: &mut Vec<Member<S>>,
    known: &Known,
    frame: &Frame,
    count: u64,
    alloc: Global,
    request: &Request,
) -> Result<Decision, Fault>
    requires rests { AllRest S.Store members.old.items }
    requires good { IsTrue (is_good_frame frame.now) }
    requires small { count ≤ greatest_receipts }
    ensures asks { AsksAll S.Store (DecidesWhere known.now (IsNewChange frame.now count request.now) request.now)
        members.old.items members.new.items result }
    ensures place { IfOk result (λ decision. HasPlace members.new.items count decision) }
    ensures makes { IfOk result MakesNone }
{
    match place_of(members.as_slice(), package_of(&request.command)) {
        None => Ok(Decision::Answered(Err(Refusal::UnknownPackage))),
        Some(at) => decide_at(members, known, at, frame, count, alloc, request),
    }
}

/// What a request comes to that did not come before.
fn decide_new<S: Alter + Drop>(
    members: &mut Vec<Member<S>>,
    known: &Known,
    frame: &Frame,
    count: u64,
    alloc: Global,
    request: &Request,
) -> Result<Decision, Fault>
    requires rests { AllRest S.Store members.old.items }
    requires good { IsTrue (is_good_frame frame.now) }
    requires small { count ≤ greatest_receipts }
    ensures asks { AsksAll S.Store (DecidesWhere known.now (IsNewTo frame.now count request.now) request.now)
        members.old.items members.new.items result }
    ensures place { IfOk result (λ decision. HasPlace members.new.items count decision) }
    ensures makes { IfOk result (λ decision. Makes (child_asked request.now.command) decision) }
{
    match &request.command {
        Command::Split {
            package,
            child,
            mode,
            rect,
        } => {
            let asked = Asked {
                package: *package,
                child: *child,
                mode: *mode,
                rect: *rect,
            };
            decide_split(members, known, frame, count, alloc, request, &asked)
        }
        Command::Merge {
            child,
            into,
            ticket,
        } => decide_merge(members, count, alloc, request, *child, *into, *ticket),
        Command::Add { .. }
        | Command::Delete { .. }
        | Command::Link { .. }
        | Command::Unlink { .. } => decide_change(members, known, frame, count, alloc, request),
    }
}

/// What a request comes to, where all that the receipts of the world name is known. The count is
/// that of the receipts so far, and the frame that of the world.
///
/// # Errors
///
/// Want of memory, or a store that failed. Nothing is changed then either.
pub fn decide<S: Alter + Drop>(
    members: &mut Vec<Member<S>>,
    known: &Known,
    frame: &Frame,
    count: u64,
    alloc: Global,
    request: &Request,
) -> Result<Decision, Fault>
    requires rests { AllRest S.Store members.old.items }
    requires good { IsTrue (is_good_frame frame.now) }
    requires small { count ≤ greatest_receipts }
    ensures asks { AsksAll S.Store (DecidesWhere known.now (IsOf frame.now count) request.now)
        members.old.items members.new.items result }
    ensures place { IfOk result (λ decision. HasPlace members.new.items count decision) }
    ensures makes { IfOk result (λ decision. Makes (child_asked request.now.command) decision) }
{
    if let Some(receipt) = find_kept(members, known, alloc, request.id)? {
        let reply = repeat_reply(alloc, receipt, &request.command)?;
        return Ok(Decision::Answered(reply));
    }
    decide_new(members, known, frame, count, alloc, request)
}
