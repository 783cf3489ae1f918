//! Stores become members of a world, or are strays. Room is there before anything is moved.
ghost use Rattle.std.specs.Prelude.{◌≡◌, ◌<◌, ◌+◌, ℕ, [], length, IfOk, vec_len, vec_capacity};
ghost use Rattle.sheet_types.specs.Ordered.{put};
ghost use Rattle.sheet_types.proofs.Arranging.{IsInOrder};
ghost use Rattle.opening_stores.specs.Sharing.{member_key, member_of, with_member, with_stray, HasRoomOf, AreShared};

use opening_faults::sights::StoreHead;
use opening_verdict::verdict::Kept;
use sqlite::{Alter, Connection};
use std::alloc::{AllocError, Global};
use world_members::members::{Member, place_for};
use world_members::reserving::{insert_reserved, push_reserved};

/// The members of a world in the order of their UUIDs, and the strays.
#[derive(Drop)]
pub struct Shares<S: Alter + Drop> {
    /// The members.
    pub members: Vec<Member<S>>,
    /// The strays, the last one first.
    pub strays: Vec<Connection<S>>,
}

/// None of both, with room for so many of each.
pub(crate) fn room_for<S: Alter + Drop>(
    alloc: Global,
    count: usize,
) -> Result<Shares<S>, AllocError>
    ensures room { IfOk result (λ shares. HasRoomOf shares count) }
    ensures members { IfOk result (λ shares. shares.members.items ≡ []) }
    ensures strays { IfOk result (λ shares. shares.strays.items ≡ []) }
{
    let members = Vec::with_capacity(alloc, count)?;
    let strays = Vec::with_capacity(alloc, count)?;
    Ok(Shares { members, strays })
}

/// The member of a store of which this is kept.
fn member_of<S: Alter + Drop>(conn: Connection<S>, kept: Kept) -> Member<S>
    ensures { result ≡ member_of conn kept }
{
    let Kept { head, sums, ticket } = kept;
    let StoreHead {
        uuid,
        parent,
        depth,
        loan,
    } = head;
    Member {
        conn,
        uuid,
        parent,
        depth,
        loan,
        sums,
        ticket,
    }
}

/// Puts a member at its place among others. Takes no memory.
fn put_in<S: Alter + Drop>(members: &mut Vec<Member<S>>, member: Member<S>)
    requires order { IsInOrder member_key members.old.items }
    requires room { vec_len members.old < vec_capacity members.old }
    ensures items { members.new.items ≡ put member_key member members.old.items }
    ensures len { vec_len members.new ≡ vec_len members.old + 1 }
    ensures capacity { vec_capacity members.new ≡ vec_capacity members.old }
{
    let place = place_for(members.as_slice(), member.uuid);
    insert_reserved(members, place, member);
}

/// Takes one store more. Takes no memory.
fn share_one<S: Alter + Drop>(shares: &mut Shares<S>, conn: Connection<S>, kept: Option<Kept>)
    requires order { IsInOrder member_key shares.old.members.items }
    requires room { HasRoomOf shares.old 1 }
    ensures members { shares.new.members.items ≡ with_member conn kept shares.old.members.items }
    ensures strays { shares.new.strays.items ≡ with_stray conn kept shares.old.strays.items }
    ensures room { (n : ℕ) → HasRoomOf shares.old (n + 1) → HasRoomOf shares.new n }
{
    match kept {
        Some(kept) => put_in(&mut shares.members, member_of(conn, kept)),
        None => push_reserved(&mut shares.strays, conn),
    }
}

/// Shares stores out by what is kept of each, the last one first. Takes no memory.
pub fn share_out<S: Alter + Drop>(
    stores: Vec<Connection<S>>,
    kept: &[Option<Kept>],
    shares: Shares<S>,
) -> Shares<S>
    requires long { length kept.now ≡ length stores.items }
    requires room { HasRoomOf shares (length stores.items) }
    requires members { shares.members.items ≡ [] }
    requires strays { shares.strays.items ≡ [] }
    ensures { AreShared stores.items kept.now result }
{
    let (mut rest, mut shares) = (stores, shares);
    for _ in 0..rest.len() {
        let Some(conn) = rest.pop() else {
            return shares;
        };
        share_one(&mut shares, conn, kept[rest.len()]);
    }
    shares
}
