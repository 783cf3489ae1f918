//! What is looked up in all live packages: a kept receipt, a used identity, a loan that was ever
//! made, and the place of a package. The look-ups are made in the order of the members and stop at
//! the first that answers. An error is want of memory, or a store that failed; all members are as
//! they were.
ghost use Rattle.std.specs.Prelude.{◌≡◌, ◌<◌, ◌↔◌, IsTrue, length};
ghost use Rattle.store_sql.specs.Transactions.{Looks};
ghost use Rattle.sheet_types.specs.Custody.{kept, is_used};
ghost use Rattle.identity_register.specs.Calls.{Sees};
ghost use Rattle.custody.specs.Receipts.{IsKept, is_named, was_lent};
ghost use Rattle.world_queries.specs.Asking.{AsksAll, IsPlaceOf};
ghost use Rattle.world_members.specs.Register.{ever_lent};
ghost use Rattle.world_members.specs.Members.{AllRest, TurnsAt};

use custody::keeping::find_receipt;
use custody::lending::was_lent;
use custody::names;
use package_tables::fault::Fault;
use sheet_types::receipt::Receipt;
use sqlite::Alter;
use std::alloc::Global;
use store_sql::resting::is_at_rest;
use uuid::Uuid;
use world_members::members::Member;

/// Whether no member's store is inside a transaction.
pub fn are_at_rest<S: Alter + Drop>(members: &[Member<S>]) -> bool
    ensures { IsTrue result ↔ AllRest S.Store members.now }
{
    for at in 0..members.len() {
        if !is_at_rest(&members[at].conn) {
            return false;
        }
    }
    true
}

/// The receipt that the package of one member keeps for a request.
pub(crate) fn kept_by<S: Alter + Drop>(
    members: &mut Vec<Member<S>>,
    at: usize,
    alloc: Global,
    id: Uuid,
) -> Result<Option<Receipt>, Fault>
    requires within { at < length members.old.items }
    requires rests { AllRest S.Store members.old.items }
    ensures looked { TurnsAt S.Store members.old.items members.new.items at
        (λ before after. Looks (Sees (λ f p found. IsKept p id found)) before after result) }
{
    let member = &mut members[at];
    find_receipt(&mut member.conn, alloc, id)
}

/// The receipt that is kept for a request, if it came before.
pub fn kept_in_all<S: Alter + Drop>(
    members: &mut Vec<Member<S>>,
    alloc: Global,
    id: Uuid,
) -> Result<Option<Receipt>, Fault>
    requires { AllRest S.Store members.old.items }
    ensures { AsksAll S.Store (λ w found. found ≡ kept w id) members.old.items members.new.items result }
{
    for at in 0..members.len() {
        match kept_by(members, at, alloc, id)? {
            Some(receipt) => return Ok(Some(receipt)),
            None => {}
        }
    }
    Ok(None)
}

/// Whether a receipt of one member's package names an identity as that of an item.
pub(crate) fn named_by<S: Alter + Drop>(
    members: &mut Vec<Member<S>>,
    at: usize,
    identity: Uuid,
) -> Result<bool, Fault>
    requires within { at < length members.old.items }
    requires rests { AllRest S.Store members.old.items }
    ensures looked { TurnsAt S.Store members.old.items members.new.items at
        (λ before after. Looks (Sees (λ f p found. found ≡ is_named p identity)) before after result) }
{
    let member = &mut members[at];
    names(&mut member.conn, identity)
}

/// Whether an identity was ever used.
pub fn is_named_in_all<S: Alter + Drop>(
    members: &mut Vec<Member<S>>,
    identity: Uuid,
) -> Result<bool, Fault>
    requires { AllRest S.Store members.old.items }
    ensures { AsksAll S.Store (λ w found. found ≡ is_used w identity) members.old.items members.new.items result }
{
    for at in 0..members.len() {
        if named_by(members, at, identity)? {
            return Ok(true);
        }
    }
    Ok(false)
}

/// Whether one member's package has the receipt of a split that made a package of this UUID.
pub(crate) fn lent_by<S: Alter + Drop>(
    members: &mut Vec<Member<S>>,
    at: usize,
    id: Uuid,
) -> Result<bool, Fault>
    requires within { at < length members.old.items }
    requires rests { AllRest S.Store members.old.items }
    ensures looked { TurnsAt S.Store members.old.items members.new.items at
        (λ before after. Looks (Sees (λ f p found. found ≡ was_lent p id)) before after result) }
{
    let member = &mut members[at];
    was_lent(&mut member.conn, id)
}

/// Whether a split ever made a package of this UUID.
pub(crate) fn was_lent_in_all<S: Alter + Drop>(
    members: &mut Vec<Member<S>>,
    id: Uuid,
) -> Result<bool, Fault>
    requires { AllRest S.Store members.old.items }
    ensures { AsksAll S.Store (λ w found. found ≡ ever_lent w id) members.old.items members.new.items result }
{
    for at in 0..members.len() {
        if lent_by(members, at, id)? {
            return Ok(true);
        }
    }
    Ok(false)
}

/// Where the member of a package stands.
pub fn place_of<S: Alter + Drop>(members: &[Member<S>], uuid: Uuid) -> Option<usize>
    ensures { IsPlaceOf S.Store members.now uuid result }
{
    for at in 0..members.len() {
        if members[at].uuid == uuid {
            return Some(at);
        }
    }
    None
}
