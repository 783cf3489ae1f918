//! What a merge comes to that did not come before. What is kept of the members is looked at first,
//! then what the child holds, once, and of each of its tiles whether the place is taken in the
//! parent.
ghost use Rattle.std.specs.Prelude.{◌≡◌, ◌<◌, ◌≤◌, ◌+◌, ◌||◌, ◌&&◌, ℕ, pos, true, false};
ghost use Rattle.std.specs.Prelude.{not, bytes_eq, IfOk, IfSome};
ghost use Rattle.std.specs.Prelude.{IfNone, Some, None, length, map, slice_get};
ghost use Rattle.std.specs.Bool.{then_some};
ghost use Rattle.std.specs.List.{list_any};
ghost use Rattle.std.specs.Option.{SomeIff};
ghost use Rattle.sheet_types.specs.Custody.{ends_at, kept};
ghost use Rattle.sheet_types.specs.Cut.{moved_of, identities};
ghost use Rattle.sheet_types.specs.Lines.{HasTypes};
ghost use Rattle.sheet_types.specs.Matrix.{is_within};
ghost use Rattle.sheet_types.specs.Ordered.{is_before};
ghost use Rattle.sheet_types.specs.Refuse.{is_at, takes_place, greatest_receipts};
ghost use Rattle.sheet_types.specs.Step.{receipt_of, receipt_over};
ghost use Rattle.sheet_types.specs.World.{World, Package, is_live, holdings, receipts_of, item_moved, link_moved};
ghost use Rattle.sheet_types.specs.declared.command.Command.TheVariants.{Merge};
ghost use Rattle.sheet_types.specs.declared.command.Request.{Request as ModelRequest};
ghost use Rattle.register_lending.specs.Selecting.{IsSelectionOf};
ghost use Rattle.world_queries.specs.Asking.{AsksAll, StandsAt};
ghost use Rattle.world_queries.specs.Sums.{IsCounted};
ghost use Rattle.world_members.specs.Steps.{sums_more};
ghost use Rattle.world_decisions.specs.Deciding.{Decides, HasPlace, MakesNone};
ghost use Rattle.world_decisions.specs.DecidingMerges.{IsMergeAt, refusal_by_kept, refusal_by_held, first_loan};
ghost use Rattle.world_decisions.specs.DecidingMerges.{clash_of, first_clash, nearer_clash, all_of, leaves_too_many};
ghost use Rattle.world_members.specs.Members.{AllRest, AreMembers};

use crate::deciding::Decision;
use crate::loan_receipts::receipt_of_things;
use identity_register::fitting::fits;
use identity_register::look_ups::has_tile_at;
use identity_register::selection::Selection;
use package_tables::fault::Fault;
use sheet_types::checks::{GREATEST_PACKAGES, GREATEST_RECEIPTS};
use sheet_types::collections::MovedList;
use sheet_types::command::{Content, Item, Relation, Request};
use sheet_types::receipt::{Moved, Receipt, Sums};
use sheet_types::refusal::Refusal;
use sqlite::Alter;
use std::alloc::Global;
use uuid::Uuid;
use world_loans::loans::Returning;
use world_members::members::Member;
use world_queries::asking::place_of;
use world_queries::asking_one::holdings_at;
use world_queries::sums::{more, sums_moved};
use world_queries::texts::text_refusal;
use world_queries::too_many::any_past_limits;

// A merge takes one package away.
const MOST_BEFORE_MERGE: usize = GREATEST_PACKAGES + 1;

/// A tile of the child whose place is taken in the parent.
#[derive(Clone, Copy)]
pub struct Clash {
    /// Its zoom, column and row.
    pub place: [u64; 3],
    /// The tile's own.
    pub identity: Uuid,
}

/// Whether a package is lent from this one, by its parent.
fn is_lent_from(parent: Option<Uuid>, lender: Uuid) -> bool
    ensures { result ≡ ends_at parent lender }
{
    match parent {
        Some(parent) => parent == lender,
        None => false,
    }
}

/// Whether a package may not go home to this one: it is lent from another, or is the same, and no
/// package is lent from itself.
fn is_foreign(parent: Option<Uuid>, child: Uuid, into: Uuid) -> bool
    ensures { result ≡ (bytes_eq child into || not (ends_at parent into)) }
{
    child == into || !is_lent_from(parent, into)
}

/// Whether a ticket is this number.
fn is_ticket(number: u64, ticket: i64) -> bool
    ensures { result ≡ is_within ticket ticket (pos number) }
{
    ticket >= 0 && ticket.unsigned_abs() == number
}

/// The first of the packages that are lent from this one.
fn loan_of<S: Alter + Drop>(members: &[Member<S>], child: Uuid) -> Option<Uuid>
    ensures { result ≡ first_loan members.now child }
{
    for at in 0..members.len() {
        let member = &members[at];
        if is_lent_from(member.parent, child) {
            return Some(member.uuid);
        }
    }
    None
}

/// Why a merge is refused by its texts and by what is kept of the members.
fn kept_refusal<S: Alter + Drop>(
    members: &[Member<S>],
    from: usize,
    request: &Request,
    child: Uuid,
    into: Uuid,
    ticket: i64,
) -> Option<Refusal>
    requires within { from < length members.now }
    ensures told { (w : World) → (count : ℕ) → AreMembers S.Store members.now count w → is_live w child ≡ true
        → slice_get w.packages from ≡ Some (holdings w child) → request.now.command ≡ Merge child into ticket
        → result ≡ refusal_by_kept w request.now }
    ensures apart { IfNone result (child ≡ into → ⊥) }
{
    if let Some(why) = text_refusal(request) {
        return Some(why);
    }
    let member = &members[from];
    if is_foreign(member.parent, child, into) {
        return Some(Refusal::Foreign);
    }
    if !is_ticket(member.ticket, ticket) {
        return Some(Refusal::Stale(member.ticket));
    }
    match loan_of(members, child) {
        Some(loan) => Some(Refusal::LoanOpen(loan)),
        None => None,
    }
}

/// Whether the package of the member at a place has a tile there.
fn has_tile_in<S: Alter + Drop>(
    members: &mut Vec<Member<S>>,
    at: usize,
    zoom: i64,
    column: i64,
    row: i64,
) -> Result<bool, Fault>
    requires within { at < length members.old.items }
    requires rests { AllRest S.Store members.old.items }
    ensures { AsksAll S.Store
        (λ w found. (p : Package) → slice_get w.packages at ≡ Some p
        → found ≡ list_any (λ i. is_at zoom column row i.content) p.items)
        members.old.items members.new.items result }
{
    let member = &mut members[at];
    has_tile_at(&mut member.conn, zoom, column, row)
}

/// The item as a clash, if it is a tile and the package of the member at a place has one there.
fn clash_at<S: Alter + Drop>(
    members: &mut Vec<Member<S>>,
    at: usize,
    item: &Item,
) -> Result<Option<Clash>, Fault>
    requires within { at < length members.old.items }
    requires rests { AllRest S.Store members.old.items }
    ensures { AsksAll S.Store
        (λ w found. (p : Package) → slice_get w.packages at ≡ Some p
        → found ≡ then_some (takes_place p item.now.content) (clash_of item.now))
        members.old.items members.new.items result }
{
    match &item.content {
        Content::Tile {
            zoom,
            column,
            row,
            ..
        } => {
            let taken = has_tile_in(members, at, *zoom, *column, *row)?;
            let place = [
                zoom.unsigned_abs(),
                column.unsigned_abs(),
                row.unsigned_abs(),
            ];
            let identity = item.identity;
            Ok(taken.then_some(Clash { place, identity }))
        }
        Content::Media { .. } => Ok(None),
        Content::Row { .. } => Ok(None),
    }
}

/// Whether a tile comes before another, by zoom, column and row.
fn comes_before(a: &Clash, b: &Clash) -> bool
    ensures { result ≡ is_before a.now.place b.now.place }
{
    a.place.cmp(&b.place).is_lt()
}

/// The first of two, that which was there where they have one place.
fn nearer(first: Option<Clash>, clash: Clash) -> Clash
    ensures { result ≡ nearer_clash first clash }
{
    match first {
        None => clash,
        Some(first) => {
            if comes_before(&clash, &first) {
                clash
            } else {
                first
            }
        }
    }
}

/// The first of these items, by zoom, column and row, whose place is taken in the package of the member at a place.
fn first_taken<S: Alter + Drop>(
    members: &mut Vec<Member<S>>,
    at: usize,
    items: &[Item],
) -> Result<Option<Clash>, Fault>
    requires within { at < length members.old.items }
    requires rests { AllRest S.Store members.old.items }
    ensures { AsksAll S.Store
        (λ w found. (p : Package) → slice_get w.packages at ≡ Some p → found ≡ first_clash p items.now)
        members.old.items members.new.items result }
{
    let mut first = None;
    for place in 0..items.len() {
        if let Some(clash) = clash_at(members, at, &items[place])? {
            first = Some(nearer(first, clash));
        }
    }
    Ok(first)
}

/// Items as a receipt names them.
fn items_moved(alloc: Global, items: &[Item]) -> Result<Vec<Moved>, Fault>
    ensures { IfOk result (λ things. things.items ≡ map item_moved items.now) }
{
    Ok(
        items
            .iter()
            .map(|item| Moved::of_item(item))
            .collect(alloc)?,
    )
}

/// Links as a receipt names them.
fn links_moved(alloc: Global, links: &[Relation]) -> Result<Vec<Moved>, Fault>
    ensures { IfOk result (λ things. things.items ≡ map link_moved links.now) }
{
    Ok(
        links
            .iter()
            .map(|link| Moved::of_link(link))
            .collect(alloc)?,
    )
}

/// All of these items and links, as a receipt names them.
fn things_of(alloc: Global, items: &[Item], links: &[Relation]) -> Result<MovedList, Fault>
    ensures { IfOk result (λ things. things ≡ moved_of items.now links.now) }
{
    let mut things = items_moved(alloc, items)?;
    let others = links_moved(alloc, links)?;
    things.extend_from_slice(&others)?;
    Ok(MovedList::from_vec(things))
}

/// The identities of items.
fn identities_of(alloc: Global, items: &[Item]) -> Result<Vec<Uuid>, Fault>
    ensures { IfOk result (λ found. found.items ≡ identities items.now) }
{
    Ok(items.iter().map(|item| item.identity).collect(alloc)?)
}

/// All of these items and links as what is selected.
fn selection_of(alloc: Global, items: &[Item], links: Vec<Relation>) -> Result<Selection, Fault>
    ensures { IfOk result (λ selection. IsSelectionOf (record { items = items.now; links = links.items }) selection) }
{
    let identities = identities_of(alloc, items)?;
    Ok(Selection { identities, links })
}

/// Whether a merge would leave too many, with these sums for the member that takes all, and the
/// number of receipts so far. The child goes; what it holds its parent holds then, so it is past a
/// limit only where its parent is.
fn leaves_too_many<S: Alter + Drop>(
    members: &[Member<S>],
    at: usize,
    sums: Sums,
    count: u64,
) -> bool
    ensures { result ≡ leaves_too_many members.now at sums count }
{
    if any_past_limits(members, at, sums) {
        return true;
    }
    if members.len() > MOST_BEFORE_MERGE {
        return true;
    }
    count >= GREATEST_RECEIPTS
}

// The values of a merge are those of their types.
fn has_types(child: Uuid, into: Uuid, ticket: i64)
    ensures { HasTypes (Merge child into ticket) }
{
    fits(child);
    fits(into);
}

/// What the package of the member at a place then holds, if that can be counted and leaves not too many.
fn sums_within<S: Alter + Drop>(
    members: &[Member<S>],
    at: usize,
    count: u64,
    some: Sums,
    held: Sums,
) -> Option<Sums>
    ensures { SomeIff result
        (IsCounted (sums_more some held)
        × (leaves_too_many members.now at (sums_more some held) count ≡ false))
        (sums_more some held) }
{
    let Some(sums) = more(some, held) else {
        return None;
    };
    if leaves_too_many(members, at, sums, count) {
        return None;
    }
    Some(sums)
}

/// What a merge that nothing speaks against comes to by what it would leave: too many, or it is due.
fn decide_by_sums<S: Alter + Drop>(
    members: &[Member<S>],
    from: usize,
    at: usize,
    count: u64,
    receipt: Receipt,
    selection: Selection,
) -> Decision
    requires from { from < length members.now }
    requires within { at < length members.now }
    requires two { from ≡ at → ⊥ }
    requires number { receipt.seq ≡ count + 1 }
    ensures decides { (w : World) → (q : ModelRequest) → AreMembers S.Store members.now count w
        → (is : IsMergeAt count from at q w) → refusal_by_held w q ≡ None → receipt ≡ receipt_of w q
        → IsSelectionOf (all_of (holdings w is.child)) selection → Decides w q result }
    ensures place { HasPlace members.now count result }
    ensures makes { MakesNone result }
{
    let moved = sums_moved(&receipt);
    match sums_within(members, at, count, moved, members[at].sums) {
        None => Decision::Answered(Err(Refusal::TooMany)),
        Some(sums) => Decision::MergeDue(Returning {
            from,
            into: at,
            selection,
            receipt,
            sums,
        }),
    }
}

/// The receipt of this number for a merge that moves all of these items and links.
fn receipt_of_all(
    alloc: Global,
    seq: u64,
    request: &Request,
    items: &[Item],
    links: &[Relation],
) -> Result<Receipt, Fault>
    ensures { IfOk result (λ receipt. receipt ≡ receipt_over seq request.now (moved_of items.now links.now)) }
{
    let things = things_of(alloc, items, links)?;
    receipt_of_things(alloc, seq, request, things)
}

/// What a merge comes to that nothing speaks against but what it would leave: the child holds these items and links.
fn decide_whole<S: Alter + Drop>(
    members: &[Member<S>],
    from: usize,
    at: usize,
    count: u64,
    alloc: Global,
    request: &Request,
    items: &[Item],
    links: Vec<Relation>,
) -> Result<Decision, Fault>
    requires from { from < length members.now }
    requires within { at < length members.now }
    requires two { from ≡ at → ⊥ }
    requires small { count ≤ greatest_receipts }
    ensures decides { (w : World) → AreMembers S.Store members.now count w
        → (is : IsMergeAt count from at request.now w) → refusal_by_held w request.now ≡ None
        → items.now ≡ (holdings w is.child).items → links.items ≡ (holdings w is.child).links
        → IfOk result (λ decision. Decides w request.now decision) }
    ensures place { IfOk result (λ decision. HasPlace members.now count decision) }
    ensures makes { IfOk result MakesNone }
{
    let receipt = receipt_of_all(alloc, count + 1, request, items, &links)?;
    let selection = selection_of(alloc, items, links)?;
    Ok(decide_by_sums(members, from, at, count, receipt, selection))
}

/// What a merge comes to that is not refused by what is kept, whose child holds these items and
/// links: the places of its tiles are looked for in its parent.
fn decide_held<S: Alter + Drop>(
    members: &mut Vec<Member<S>>,
    from: usize,
    at: usize,
    count: u64,
    alloc: Global,
    request: &Request,
    items: &[Item],
    links: Vec<Relation>,
) -> Result<Decision, Fault>
    requires from { from < length members.old.items }
    requires within { at < length members.old.items }
    requires two { from ≡ at → ⊥ }
    requires rests { AllRest S.Store members.old.items }
    requires small { count ≤ greatest_receipts }
    ensures asks { AsksAll S.Store
        (λ w decision. (is : IsMergeAt count from at request.now w)
        → items.now ≡ (holdings w is.child).items → links.items ≡ (holdings w is.child).links
        → refusal_by_kept w request.now ≡ None → Decides w request.now decision)
        members.old.items members.new.items result }
    ensures place { IfOk result (λ decision. HasPlace members.new.items count decision) }
    ensures makes { IfOk result MakesNone }
{
    match first_taken(members, at, items)? {
        Some(clash) => Ok(Decision::Answered(Err(Refusal::Collides(clash.identity)))),
        None => decide_whole(
            members.as_slice(),
            from,
            at,
            count,
            alloc,
            request,
            items,
            links,
        ),
    }
}

/// What a merge comes to that is not refused by what is kept: what the child holds is read, and
/// looked for in its parent.
fn decide_read<S: Alter + Drop>(
    members: &mut Vec<Member<S>>,
    from: usize,
    at: usize,
    count: u64,
    alloc: Global,
    request: &Request,
) -> Result<Decision, Fault>
    requires from { from < length members.old.items }
    requires within { at < length members.old.items }
    requires two { from ≡ at → ⊥ }
    requires rests { AllRest S.Store members.old.items }
    requires small { count ≤ greatest_receipts }
    ensures asks { AsksAll S.Store
        (λ w decision. IsMergeAt count from at request.now w → refusal_by_kept w request.now ≡ None
        → Decides w request.now decision)
        members.old.items members.new.items result }
    ensures place { IfOk result (λ decision. HasPlace members.new.items count decision) }
    ensures makes { IfOk result MakesNone }
{
    let (items, links) = holdings_at(members, from, alloc)?;
    decide_held(members, from, at, count, alloc, request, &items, links)
}

/// What a merge comes to whose packages have these members.
fn decide_placed<S: Alter + Drop>(
    members: &mut Vec<Member<S>>,
    from: usize,
    at: usize,
    count: u64,
    alloc: Global,
    request: &Request,
    child: Uuid,
    into: Uuid,
    ticket: i64,
) -> Result<Decision, Fault>
    requires from { StandsAt S.Store members.old.items child from }
    requires at { StandsAt S.Store members.old.items into at }
    requires rests { AllRest S.Store members.old.items }
    requires small { count ≤ greatest_receipts }
    requires merges { request.now.command ≡ Merge child into ticket }
    ensures asks { AsksAll S.Store
        (λ w decision. IsMergeAt count from at request.now w → Decides w request.now decision)
        members.old.items members.new.items result }
    ensures place { IfOk result (λ decision. HasPlace members.new.items count decision) }
    ensures makes { IfOk result MakesNone }
{
    match kept_refusal(members.as_slice(), from, request, child, into, ticket) {
        Some(why) => Ok(Decision::Answered(Err(why))),
        None => decide_read(members, from, at, count, alloc, request),
    }
}

/// Where the members of two packages stand, if both have one.
fn places_of<S: Alter + Drop>(
    members: &[Member<S>],
    child: Uuid,
    into: Uuid,
) -> Option<(usize, usize)>
    ensures some { IfSome result
        (λ places. StandsAt S.Store members.now child places.0
        × StandsAt S.Store members.now into places.1) }
    ensures none { IfNone result
        ((w : World) (count : ℕ) → AreMembers S.Store members.now count w
        → (is_live w child && is_live w into) ≡ false) }
{
    let Some(from) = place_of(members, child) else {
        return None;
    };
    let Some(at) = place_of(members, into) else {
        return None;
    };
    Some((from, at))
}

/// What a merge comes to that did not come before.
///
/// # Errors
///
/// Want of memory, or a store that failed. Nothing is changed then either.
pub(crate) fn decide_merge<S: Alter + Drop>(
    members: &mut Vec<Member<S>>,
    count: u64,
    alloc: Global,
    request: &Request,
    child: Uuid,
    into: Uuid,
    ticket: i64,
) -> Result<Decision, Fault>
    requires rests { AllRest S.Store members.old.items }
    requires small { count ≤ greatest_receipts }
    requires merges { request.now.command ≡ Merge child into ticket }
    ensures asks { AsksAll S.Store
        (λ w decision. count ≡ length (receipts_of w) → kept w request.now.id ≡ None
        → Decides w request.now decision)
        members.old.items members.new.items result }
    ensures place { IfOk result (λ decision. HasPlace members.new.items count decision) }
    ensures makes { IfOk result MakesNone }
{
    fits(request.id);
    has_types(child, into, ticket);
    match places_of(members.as_slice(), child, into) {
        None => Ok(Decision::Answered(Err(Refusal::UnknownPackage))),
        Some((from, at)) => decide_placed(
            members, from, at, count, alloc, request, child, into, ticket,
        ),
    }
}
