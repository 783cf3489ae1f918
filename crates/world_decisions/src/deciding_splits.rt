//! What a split comes to that did not come before: the first reason that holds, or all that it
//! needs to be carried out, made before anything is written. The members are read in the order in
//! which the reasons are told, and no further than the first that holds.
ghost use Rattle.std.specs.Prelude.{◌≡◌, ◌<◌, ◌≤◌, ◌+◌, ◌&&◌, ℕ, true, IsTrue, None, Some};
ghost use Rattle.std.specs.Prelude.{IfOk, length, slice_get};
ghost use Rattle.std.specs.Prelude.{bytes_eq, is_none};
ghost use Rattle.std.specs.List.{list_any};
ghost use Rattle.sheet_types.specs.Lines.{HasTypes, is_rect};
ghost use Rattle.sheet_types.specs.Matrix.{is_good_frame, is_good_rect, first_row};
ghost use Rattle.sheet_types.specs.Refuse.{greatest_depth, greatest_receipts};
ghost use Rattle.sheet_types.specs.Cut.{Cut, moved_of};
ghost use Rattle.sheet_types.specs.Step.{receipt_over};
ghost use Rattle.sheet_types.specs.World.{World, Package};
ghost use Rattle.register_lending.specs.Selecting.{IsSelectionOf, IsPart};
ghost use Rattle.sheet_types.specs.declared.command.Request.{Request};
ghost use Rattle.world_known.specs.Known.{Knows};
ghost use Rattle.world_queries.specs.Asking.{AsksAll};
ghost use Rattle.world_decisions.specs.Deciding.{IsNewTo, Decides, DecidesWhere, HasPlace, Makes};
ghost use Rattle.world_decisions.specs.DecidingSplits.{command_of, IsPlacedSplit, IsAskedSplit, IsLender, uuid_used};
ghost use Rattle.world_decisions.specs.DecidingSplits.{reasons_before_cut, place_reasons, value_reasons, IsCutOut};
ghost use Rattle.world_decisions.specs.DecidingSplits.{IsSelectedFor, leaves_too_many, IsMadeOf};
ghost use Rattle.world_members.specs.Members.{AllRest, AreMembers};
ghost use Rattle.world_members.specs.Steps.{sums_moved, sums_less};
ghost use Rattle.world_decisions.specs.declared.deciding_splits.Asked.{Asked};

use crate::deciding::Decision;
use crate::loan_receipts::{receipt_of_things, things_at};
use cut::select::select;
use identity_register::fitting::fits;
use identity_register::selection::Selection;
use matrix_rules::ground::is_good;
use package_tables::fault::Fault;
use sheet_types::checks::{GREATEST_PACKAGES, GREATEST_RECEIPTS};
use sheet_types::command::{Mode, Request};
use sheet_types::frame::{Frame, Rect};
use sheet_types::receipt::{Receipt, Sums};
use sheet_types::refusal::Refusal;
use sqlite::Alter;
use std::alloc::Global;
use uuid::Uuid;
use world_known::known::Known;
use world_loans::loans::Lending;
use world_members::members::{Member, place_for};
use world_queries::asking::place_of;
use world_queries::recalling::was_ever_lent;
use world_queries::sums::{less, sums_moved};
use world_queries::texts::text_refusal;
use world_queries::too_many::{any_past_limits, is_past_limits};

/// What a split asks for.
#[derive(Clone, Copy)]
pub(crate) struct Asked {
    /// The package that is to lend.
    pub(crate) package: Uuid,
    /// The UUID of the loan.
    pub(crate) child: Uuid,
    /// What becomes of a link of which one end alone would go.
    pub(crate) mode: Mode,
    /// Where what is to be lent lies.
    pub(crate) rect: Rect,
}

/// The member that is to lend, and what is kept of it.
#[derive(Clone, Copy)]
pub(crate) struct Lender {
    /// Where it stands.
    pub(crate) at: usize,
    /// How many loans it is below the archive.
    pub(crate) depth: u64,
    /// What it holds.
    pub(crate) held: Sums,
}

// The numbers of a rectangle are those of their types.
fn rect_has_types(rect: Rect)
    ensures { is_rect rect ≡ true }
{}

// The values of a split are those of their types.
fn has_types(asked: Asked)
    ensures { HasTypes (command_of asked) }
{
    fits(asked.package);
    fits(asked.child);
    rect_has_types(asked.rect);
}

/// Whether a member is the archive, and of this UUID.
fn is_archive<S: Alter + Drop>(member: &Member<S>, id: Uuid) -> bool
    ensures { result ≡ (is_none member.now.parent && bytes_eq member.now.uuid id) }
{
    member.parent.is_none() & (member.uuid == id)
}

/// Whether this is the UUID of the archive.
fn is_of_archive<S: Alter + Drop>(members: &[Member<S>], id: Uuid) -> bool
    ensures { result ≡ list_any (λ m. is_none m.parent && bytes_eq m.uuid id) members.now }
{
    members.iter().any(|member| is_archive(member, id))
}

/// Whether this is the UUID of the archive, or was ever that of a loan.
fn is_used<S: Alter + Drop>(
    members: &mut Vec<Member<S>>,
    known: &Known,
    id: Uuid,
) -> Result<bool, Fault>
    requires { AllRest S.Store members.old.items }
    ensures { AsksAll S.Store (λ w found. Knows known.now w → found ≡ uuid_used w id)
        members.old.items members.new.items result }
{
    if is_of_archive(members.as_slice(), id) {
        return Ok(true);
    }
    was_ever_lent(members, known, id)
}

/// Why a split is refused for its rectangle or the depth of its package, if it is.
fn refused_by_place(frame: &Frame, rect: &Rect, depth: u64) -> Option<Refusal>
    requires { IsTrue (is_good_frame frame.now) }
    ensures why { result ≡ first_row (place_reasons frame.now rect.now depth) }
    ensures rect { result ≡ None → IsTrue (is_good_rect frame.now rect.now) }
    ensures shallow { result ≡ None → depth < greatest_depth }
{
    if !is_good(frame, rect) {
        return Some(Refusal::BadRectangle);
    }
    if depth >= 4 {
        return Some(Refusal::TooDeep);
    }
    None
}

/// Why a split is refused for its texts, its rectangle or the depth of its package, if it is.
fn refused_by_values(frame: &Frame, request: &Request, rect: &Rect, depth: u64) -> Option<Refusal>
    requires { IsTrue (is_good_frame frame.now) }
    ensures why { result ≡ first_row (value_reasons frame.now request.now rect.now depth) }
    ensures rect { result ≡ None → IsTrue (is_good_rect frame.now rect.now) }
    ensures shallow { result ≡ None → depth < greatest_depth }
{
    if let Some(why) = text_refusal(request) {
        return Some(why);
    }
    refused_by_place(frame, rect, depth)
}

/// Why a split is refused before it is looked at what it would take, if it is.
fn refused_before_cut<S: Alter + Drop>(
    members: &mut Vec<Member<S>>,
    known: &Known,
    frame: &Frame,
    request: &Request,
    asked: &Asked,
    depth: u64,
) -> Result<Option<Refusal>, Fault>
    requires rests { AllRest S.Store members.old.items }
    requires good { IsTrue (is_good_frame frame.now) }
    ensures asks { AsksAll S.Store
        (λ w found. Knows known.now w → IsAskedSplit frame.now request.now asked.now depth w
        → found ≡ first_row (reasons_before_cut w request.now))
        members.old.items members.new.items result }
    ensures rect { IfOk result (λ found. found ≡ None → IsTrue (is_good_rect frame.now asked.now.rect)) }
    ensures shallow { IfOk result (λ found. found ≡ None → depth < greatest_depth) }
{
    if is_used(members, known, asked.child)? {
        return Ok(Some(Refusal::PackageUsed));
    }
    Ok(refused_by_values(frame, request, &asked.rect, depth))
}

/// What is cut out of the package of the member at a place, or why nothing is.
fn cut_at<S: Alter + Drop>(
    members: &mut Vec<Member<S>>,
    at: usize,
    frame: &Frame,
    alloc: Global,
    rect: &Rect,
    mode: Mode,
) -> Result<Result<Selection, Refusal>, Fault>
    requires within { at < length members.old.items }
    requires rests { AllRest S.Store members.old.items }
    requires frame { IsTrue (is_good_frame frame.now) }
    requires rect { IsTrue (is_good_rect frame.now rect.now) }
    ensures { AsksAll S.Store
        (λ w answer. frame.now ≡ w.frame → (p : Package) → slice_get w.packages at ≡ Some p
        → IsCutOut w p mode rect.now answer)
        members.old.items members.new.items result }
{
    let member = &mut members[at];
    select(&mut member.conn, alloc, frame, rect, mode)
}

/// Whether a split would leave too many, with the sums that it leaves of the member at a place,
/// those of the loan, and the number of receipts so far.
fn is_too_many<S: Alter + Drop>(
    members: &[Member<S>],
    at: usize,
    left: Sums,
    lent: Sums,
    count: u64,
) -> bool
    ensures { result ≡ leaves_too_many members.now at left lent count }
{
    if is_past_limits(lent) {
        return true;
    }
    if any_past_limits(members, at, left) {
        return true;
    }
    if members.len() >= GREATEST_PACKAGES {
        return true;
    }
    count >= GREATEST_RECEIPTS
}

/// What a split comes to of which all was made that would be due: too many, or it is due.
fn decide_by_sums<S: Alter + Drop>(members: &[Member<S>], count: u64, due: Lending) -> Decision
    requires at { due.at < length members.now }
    requires child_at { due.child_at ≤ length members.now }
    requires number { due.receipt.seq ≡ count + 1 }
    requires shallow { due.depth ≤ greatest_depth }
    ensures decides { (w : World) (q : Request) (s : Asked) → AreMembers S.Store members.now count w
        → IsMadeOf w q s due → Decides w q result }
    ensures place { HasPlace members.now count result }
    ensures makes { Makes (Some due.child) result }
{
    if is_too_many(members, due.at, due.left, due.lent, count) {
        return Decision::Answered(Err(Refusal::TooMany));
    }
    Decision::SplitDue(due)
}

/// What a package is left with of which so much is lent. A store that has less than it is to lend has failed.
fn left_of(lent: Sums, held: Sums) -> Result<Sums, Fault>
    ensures { IfOk result (λ left. left ≡ sums_less lent held) }
{
    match less(lent, held) {
        Some(left) => Ok(left),
        None => Err(Fault::StoreFault),
    }
}

/// The receipt of this number for what is selected of the package of the member that lends, and
/// what the package is left with.
fn parted_at<S: Alter + Drop>(
    members: &mut Vec<Member<S>>,
    lender: Lender,
    seq: u64,
    alloc: Global,
    request: &Request,
    selection: &Selection,
) -> Result<(Receipt, Sums), Fault>
    requires within { lender.at < length members.old.items }
    requires rests { AllRest S.Store members.old.items }
    ensures asks { AsksAll S.Store
        (λ w parted. (p : Package) (c : Cut) → slice_get w.packages lender.at ≡ Some p
        → IsSelectionOf c selection.now
        → IsPart c p → parted.0 ≡ receipt_over seq request.now (moved_of c.items c.links))
        members.old.items members.new.items result }
    ensures left { IfOk result (λ parted. parted.1 ≡ sums_less (sums_moved parted.0) lender.held) }
    ensures number { IfOk result (λ parted. parted.0.seq ≡ seq) }
{
    let things = things_at(members, lender.at, alloc, selection)?;
    let receipt = receipt_of_things(alloc, seq, request, things)?;
    let left = left_of(sums_moved(&receipt), lender.held)?;
    Ok((receipt, left))
}

/// What a split comes to whose cut is selected.
fn decide_selected<S: Alter + Drop>(
    members: &mut Vec<Member<S>>,
    lender: Lender,
    count: u64,
    alloc: Global,
    request: &Request,
    asked: &Asked,
    selection: Selection,
) -> Result<Decision, Fault>
    requires within { lender.at < length members.old.items }
    requires rests { AllRest S.Store members.old.items }
    requires small { count ≤ greatest_receipts }
    requires shallow { lender.depth < greatest_depth }
    ensures asks { AsksAll S.Store
        (λ w decision. IsSelectedFor count request.now asked.now lender selection w → Decides w request.now decision)
        members.old.items members.new.items result }
    ensures place { IfOk result (λ decision. HasPlace members.new.items count decision) }
    ensures makes { IfOk result (λ decision. Makes (Some asked.now.child) decision) }
{
    let (receipt, left) = parted_at(members, lender, count + 1, alloc, request, &selection)?;
    let lent = sums_moved(&receipt);
    let due = Lending {
        at: lender.at,
        child_at: place_for(members.as_slice(), asked.child),
        child: asked.child,
        parent: asked.package,
        depth: lender.depth + 1,
        selection,
        receipt,
        left,
        lent,
    };
    Ok(decide_by_sums(members.as_slice(), count, due))
}

/// The member at a place as one that is to lend.
fn lender_at<S: Alter + Drop>(members: &[Member<S>], at: usize) -> Lender
    requires within { at < length members.now }
    ensures at { result.at ≡ at }
    ensures kept { (w : World) (count : ℕ) (p : Package) → AreMembers S.Store members.now count w
        → slice_get w.packages at ≡ Some p → IsLender w p result }
{
    let member = &members[at];
    Lender {
        at,
        depth: member.depth,
        held: member.sums,
    }
}

/// What a new split comes to whose package stands at a place.
fn decide_at<S: Alter + Drop>(
    members: &mut Vec<Member<S>>,
    known: &Known,
    at: usize,
    frame: &Frame,
    count: u64,
    alloc: Global,
    request: &Request,
    asked: &Asked,
) -> Result<Decision, Fault>
    requires within { at < length members.old.items }
    requires rests { AllRest S.Store members.old.items }
    requires good { IsTrue (is_good_frame frame.now) }
    requires small { count ≤ greatest_receipts }
    ensures asks { AsksAll S.Store
        (DecidesWhere known.now (IsPlacedSplit frame.now count at request.now asked.now) request.now)
        members.old.items members.new.items result }
    ensures place { IfOk result (λ decision. HasPlace members.new.items count decision) }
    ensures makes { IfOk result (λ decision. Makes (Some asked.now.child) decision) }
{
    let lender = lender_at(members.as_slice(), at);
    if let Some(why) = refused_before_cut(members, known, frame, request, asked, lender.depth)? {
        return Ok(Decision::Answered(Err(why)));
    }
    match cut_at(members, at, frame, alloc, &asked.rect, asked.mode)? {
        Err(why) => Ok(Decision::Answered(Err(why))),
        Ok(selection) => decide_selected(members, lender, count, alloc, request, asked, selection),
    }
}

/// What a split comes to that did not come before.
///
/// # Errors
///
/// Want of memory, or a store that failed. Nothing is changed then either.
pub(crate) fn decide_split<S: Alter + Drop>(
    members: &mut Vec<Member<S>>,
    known: &Known,
    frame: &Frame,
    count: u64,
    alloc: Global,
    request: &Request,
    asked: &Asked,
) -> Result<Decision, Fault>
    requires asked { request.now.command ≡ command_of asked.now }
    requires rests { AllRest S.Store members.old.items }
    requires good { IsTrue (is_good_frame frame.now) }
    requires small { count ≤ greatest_receipts }
    ensures asks { AsksAll S.Store (DecidesWhere known.now (IsNewTo frame.now count request.now) request.now)
        members.old.items members.new.items result }
    ensures place { IfOk result (λ decision. HasPlace members.new.items count decision) }
    ensures makes { IfOk result (λ decision. Makes (Some asked.now.child) decision) }
{
    fits(request.id);
    has_types(*asked);
    match place_of(members.as_slice(), asked.package) {
        None => Ok(Decision::Answered(Err(Refusal::UnknownPackage))),
        Some(at) => decide_at(members, known, at, frame, count, alloc, request, asked),
    }
}
