//! The order in which items, links and identities stand.
ghost use Rattle.std.specs.Prelude.{◌≡◌, [], length, unwrap_or};
ghost use Rattle.std.specs.Ordering.{nat_cmp};
ghost use Rattle.std.specs.Cmp.Lexicographic.{slice_cmp};
ghost use Rattle.sheet_types.specs.Ordered.{is_before};
ghost use Rattle.sheet_types.specs.World.{thing_key, moved_key, item_key, link_key};

use crate::command::{Item, Relation};
use crate::receipt::{Moved, MovedKind};
use std::cmp::Ordering;
use uuid::Uuid;

/// Whether a UUID stands before another, as numbers of 128 bits and as texts in lower case.
pub fn uuid_is_before(a: Uuid, b: Uuid) -> bool
    ensures { result ≡ is_before a b }
{
    a.cmp(&b).is_lt()
}

// The order of the bytes, of which both have as many.
fn bytes_order(a: &[u8; 16], b: &[u8; 16]) -> Ordering
    ensures order { result ≡ slice_cmp nat_cmp a.now b.now }
    ensures long { length a.now ≡ length b.now }
{
    a.cmp(b)
}

// The bytes of a link's other end; none for an item.
fn end_bytes(end: &Option<Uuid>) -> &[u8]
    ensures { result.now ≡ unwrap_or end.now [] }
{
    match end {
        Some(id) => id.as_bytes(),
        None => &[],
    }
}

// The order of the kind, the base and the other end.
#[tactic(auto, using(crate::proofs::KeyOrder::slice_cmp_append))]
fn key_order(a: (MovedKind, Uuid, Option<Uuid>), b: (MovedKind, Uuid, Option<Uuid>)) -> Ordering
    ensures { result ≡ slice_cmp nat_cmp (thing_key a.0 a.1 a.2) (thing_key b.0 b.1 b.2) }
{
    let kinds = a.0.number().cmp(&b.0.number());
    let bases = bytes_order(a.1.as_bytes(), b.1.as_bytes());
    let ends = end_bytes(&a.2).cmp(end_bytes(&b.2));
    kinds.then(bases.then(ends))
}

/// Whether a thing that was moved stands before another: by kind, base and other end.
pub fn moved_is_before(a: &Moved, b: &Moved) -> bool
    ensures { result ≡ is_before (moved_key a.now) (moved_key b.now) }
{
    key_order((a.kind, a.base, a.other), (b.kind, b.base, b.other)).is_lt()
}

/// Whether an item stands before another: by kind and identity.
pub fn item_is_before(a: &Item, b: &Item) -> bool
    ensures { result ≡ is_before (item_key a.now) (item_key b.now) }
{
    key_order(
        (a.content.kind(), a.identity, None),
        (b.content.kind(), b.identity, None),
    )
    .is_lt()
}

/// Whether a link stands before another: by mapping, base and other end.
pub fn link_is_before(a: &Relation, b: &Relation) -> bool
    ensures { result ≡ is_before (link_key a.now) (link_key b.now) }
{
    key_order(
        (a.mapping.link_kind(), a.base, Some(a.other)),
        (b.mapping.link_kind(), b.base, Some(b.other)),
    )
    .is_lt()
}
