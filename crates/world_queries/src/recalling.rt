//! What is looked up of a UUID that receipts may name: nothing where it is not known; else in the
//! package to which it leads, and only where that one has no answer in all of them. An error is
//! want of memory, or a store that failed; all members are as they were.
ghost use Rattle.std.specs.Prelude.{◌≡◌, ◌<◌, Some, IfSome, IsTrue, true, length};
ghost use Rattle.sheet_types.specs.Custody.{kept, is_used};
ghost use Rattle.world_known.specs.Known.{Knows};
ghost use Rattle.world_queries.specs.Asking.{AsksAll};
ghost use Rattle.world_members.specs.Register.{ever_lent};
ghost use Rattle.world_members.specs.Members.{AllRest};

use crate::asking::{
    is_named_in_all, kept_by, kept_in_all, lent_by, named_by, place_of, was_lent_in_all,
};
use package_tables::fault::Fault;
use sheet_types::receipt::Receipt;
use sqlite::Alter;
use std::alloc::Global;
use uuid::Uuid;
use world_known::known::Known;
use world_members::members::Member;

/// Where the package stands that has what was entered in a package: the same one or, where that was
/// merged, the one that took it, or took that one in turn. A loan is at most four below the
/// archive.
pub(crate) fn live_place<S: Alter + Drop>(
    members: &[Member<S>],
    known: &Known,
    package: Uuid,
) -> Option<usize>
    ensures { IfSome result (λ at. at < length members.now) }
{
    let mut package = package;
    for _ in 0..5 {
        if let Some(at) = place_of(members, package) {
            return Some(at);
        }
        package = known.place_of(package)?;
    }
    None
}

/// The receipt that the package of the member at a place keeps for a request, which is the one of
/// the world; that it keeps none tells nothing.
fn kept_at<S: Alter + Drop>(
    members: &mut Vec<Member<S>>,
    at: usize,
    alloc: Global,
    id: Uuid,
) -> Result<Option<Receipt>, Fault>
    requires within { at < length members.old.items }
    requires rests { AllRest S.Store members.old.items }
    ensures { AsksAll S.Store (λ w found. IfSome found (λ receipt. Some receipt ≡ kept w id))
        members.old.items members.new.items result }
{
    kept_by(members, at, alloc, id)
}

/// The same of the package to which a request leads, if that is live.
fn kept_near<S: Alter + Drop>(
    members: &mut Vec<Member<S>>,
    known: &Known,
    package: Uuid,
    alloc: Global,
    id: Uuid,
) -> Result<Option<Receipt>, Fault>
    requires { AllRest S.Store members.old.items }
    ensures { AsksAll S.Store (λ w found. IfSome found (λ receipt. Some receipt ≡ kept w id))
        members.old.items members.new.items result }
{
    match live_place(members.as_slice(), known, package) {
        Some(at) => kept_at(members, at, alloc, id),
        None => Ok(None),
    }
}

/// The receipt that is kept for a request, if it came before.
pub fn find_kept<S: Alter + Drop>(
    members: &mut Vec<Member<S>>,
    known: &Known,
    alloc: Global,
    id: Uuid,
) -> Result<Option<Receipt>, Fault>
    requires { AllRest S.Store members.old.items }
    ensures { AsksAll S.Store (λ w found. Knows known.now w → found ≡ kept w id)
        members.old.items members.new.items result }
{
    let Some(package) = known.place_of(id) else {
        return Ok(None);
    };
    if let Some(receipt) = kept_near(members, known, package, alloc, id)? {
        return Ok(Some(receipt));
    }
    kept_in_all(members, alloc, id)
}

/// Whether the package of the member at a place names an identity; that it does not tells nothing.
fn named_at<S: Alter + Drop>(
    members: &mut Vec<Member<S>>,
    at: usize,
    identity: Uuid,
) -> Result<bool, Fault>
    requires within { at < length members.old.items }
    requires rests { AllRest S.Store members.old.items }
    ensures { AsksAll S.Store (λ w found. IsTrue found → is_used w identity ≡ true)
        members.old.items members.new.items result }
{
    named_by(members, at, identity)
}

/// The same of the package to which an identity leads, if that is live.
fn named_near<S: Alter + Drop>(
    members: &mut Vec<Member<S>>,
    known: &Known,
    package: Uuid,
    identity: Uuid,
) -> Result<bool, Fault>
    requires { AllRest S.Store members.old.items }
    ensures { AsksAll S.Store (λ w found. IsTrue found → is_used w identity ≡ true)
        members.old.items members.new.items result }
{
    match live_place(members.as_slice(), known, package) {
        Some(at) => named_at(members, at, identity),
        None => Ok(false),
    }
}

/// Whether an identity was ever used.
pub fn was_used<S: Alter + Drop>(
    members: &mut Vec<Member<S>>,
    known: &Known,
    identity: Uuid,
) -> Result<bool, Fault>
    requires { AllRest S.Store members.old.items }
    ensures { AsksAll S.Store (λ w found. Knows known.now w → found ≡ is_used w identity)
        members.old.items members.new.items result }
{
    let Some(package) = known.place_of(identity) else {
        return Ok(false);
    };
    if named_near(members, known, package, identity)? {
        return Ok(true);
    }
    is_named_in_all(members, identity)
}

/// Whether the package of the member at a place has the receipt of a split that made a package of
/// this UUID; that it does not tells nothing.
fn lent_at<S: Alter + Drop>(
    members: &mut Vec<Member<S>>,
    at: usize,
    id: Uuid,
) -> Result<bool, Fault>
    requires within { at < length members.old.items }
    requires rests { AllRest S.Store members.old.items }
    ensures { AsksAll S.Store (λ w found. IsTrue found → ever_lent w id ≡ true)
        members.old.items members.new.items result }
{
    lent_by(members, at, id)
}

/// The same of the package to which the UUID leads, if that is live.
fn lent_near<S: Alter + Drop>(
    members: &mut Vec<Member<S>>,
    known: &Known,
    package: Uuid,
    id: Uuid,
) -> Result<bool, Fault>
    requires { AllRest S.Store members.old.items }
    ensures { AsksAll S.Store (λ w found. IsTrue found → ever_lent w id ≡ true)
        members.old.items members.new.items result }
{
    match live_place(members.as_slice(), known, package) {
        Some(at) => lent_at(members, at, id),
        None => Ok(false),
    }
}

/// Whether a split ever made a package of this UUID.
pub fn was_ever_lent<S: Alter + Drop>(
    members: &mut Vec<Member<S>>,
    known: &Known,
    id: Uuid,
) -> Result<bool, Fault>
    requires { AllRest S.Store members.old.items }
    ensures { AsksAll S.Store (λ w found. Knows known.now w → found ≡ ever_lent w id)
        members.old.items members.new.items result }
{
    let Some(package) = known.place_of(id) else {
        return Ok(false);
    };
    if lent_near(members, known, package, id)? {
        return Ok(true);
    }
    was_lent_in_all(members, id)
}
