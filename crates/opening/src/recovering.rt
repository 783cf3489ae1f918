//! The opening itself.
ghost use Rattle.std.specs.Prelude.{◌≡◌, ◌≤◌, [], length, IfOk, IfErr, IsTrue, vec_capacity};
ghost use Rattle.sheet_types.specs.Matrix.{is_good_frame};
ghost use Rattle.sheet_types.specs.Refuse.{greatest_receipts};
ghost use Rattle.world.specs.Creating.{HasRoom};
ghost use Rattle.world_changes.specs.Leaving.{AreAtRest, AreClean};
ghost use Rattle.opening_stores.specs.Stores.{AreAllKeyed};
ghost use Rattle.opening_stores.specs.Sharing.{strays_of, HasRoomOf};
ghost use Rattle.opening.specs.Recovered.{IsRecovered, IsUnopened, seen_of_stores, StandsForSome};

use opening_faults::faults::RecoverFault;
use opening_stores::bringing::{Room, bring_stores};
use opening_stores::judging::{Judged, is_of_all, judge_stores};
use opening_stores::sharing::{Shares, share_out};
use opening_stores::surveying::are_at_rest;
use opening_stores::watching::Watcher;
use sqlite::{Alter, Connection};
use std::alloc::Global;
use world::world::World;

/// What stores come to that stand for a world.
#[derive(Drop)]
pub struct Recovered<S: Alter + Drop> {
    /// The world, over the stores that are live.
    pub world: World<S>,
    /// The stores that are not, the last one first.
    pub strays: Vec<Connection<S>>,
}

/// Why no world was opened, with all stores, in their order.
#[derive(Drop)]
pub struct Unopened<S: Alter + Drop> {
    /// The first of the nine faults that holds, or what gave out.
    pub fault: RecoverFault,
    /// The stores that were handed in.
    pub stores: Vec<Connection<S>>,
}

// The world of stores that are judged and brought. Takes no memory.
fn open_world<S: Alter + Drop>(
    stores: Vec<Connection<S>>,
    judged: Judged,
    room: Room<S>,
) -> Recovered<S>
    requires rests { AreAtRest S.Store stores.items }
    requires long { length judged.verdict.kept.items ≡ length stores.items }
    requires good { IsTrue (is_good_frame judged.frame) }
    requires low { judged.verdict.count ≤ greatest_receipts }
    requires stands { AreClean S.Store stores.items → StandsForSome S.Store
        (seen_of_stores judged.frame stores.items judged.verdict judged.known) }
    requires shares { HasRoomOf room.shares (length stores.items) }
    requires members { room.shares.members.items ≡ [] }
    requires strays { room.shares.strays.items ≡ [] }
    requires empty { room.handed_out.items ≡ [] }
    requires handed_out { length stores.items ≤ vec_capacity room.handed_out }
    ensures world { result.world ≡ seen_of_stores judged.frame stores.items judged.verdict judged.known }
    ensures strays { result.strays.items ≡ strays_of stores.items judged.verdict.kept.items }
{
    let Shares { members, strays } = share_out(stores, &judged.verdict.kept, room.shares);
    let world = World::from_members(
        judged.frame,
        members,
        judged.verdict.count,
        room.handed_out,
        judged.known,
    );
    Recovered { world, strays }
}

// Opens the world of stores of which none is inside a transaction.
fn recover_at_rest<S: Alter + Drop, W: Watcher>(
    alloc: Global,
    stores: Vec<Connection<S>>,
    watcher: &mut W,
) -> Result<Recovered<S>, Unopened<S>>
    requires rests { AreAtRest S.Store stores.items }
    requires keyed { AreAllKeyed S.Store stores.items }
    ensures stands { IfOk result (IsRecovered S.Store stores.items) }
    ensures fault { IfErr result (IsUnopened S.Store stores.items) }
{
    let mut stores = stores;
    let judged = match judge_stores(alloc, &mut stores, watcher) {
        Ok(judged) => judged,
        Err(fault) => return Err(Unopened { fault, stores }),
    };
    // A verdict always is; that is told of clean disks alone.
    if !is_of_all(&judged, stores.len()) {
        let fault = RecoverFault::StoreFault;
        return Err(Unopened { fault, stores });
    }
    let room = match bring_stores(alloc, &mut stores, &judged.verdict.kept) {
        Ok(room) => room,
        Err(fault) => return Err(Unopened { fault, stores }),
    };
    Ok(open_world(stores, judged, room))
}

/// Opens the world that stores stand for, whatever they are and in whatever order: the live ones
/// become its members, the others are handed out beside it. A live one of the first version is
/// brought to the second. Each was just opened, so that its tables are in the order of their
/// rowids. The watcher is told how many of them were looked at.
///
/// # Errors
///
/// The first of the nine faults whose condition holds, with its least package or identity; or want
/// of memory, or a store that failed. All stores are handed back: only read, but for live ones that
/// may have been brought before memory or a store gave out.
pub fn recover<S: Alter + Drop, W: Watcher>(
    alloc: Global,
    stores: Vec<Connection<S>>,
    watcher: &mut W,
) -> Result<Recovered<S>, Unopened<S>>
    requires keyed { AreAllKeyed S.Store stores.items }
    ensures stands { IfOk result (IsRecovered S.Store stores.items) }
    ensures fault { IfErr result (IsUnopened S.Store stores.items) }
{
    if are_at_rest(&stores) {
        return recover_at_rest(alloc, stores, watcher);
    }
    let fault = RecoverFault::StoreFault;
    Err(Unopened { fault, stores })
}
