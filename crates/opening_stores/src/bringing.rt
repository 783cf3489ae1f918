//! The stores of live packages, each brought to the second version where it is of the first, once
//! there is room for all that is moved then.
ghost use Rattle.std.specs.Prelude.{◌≡◌, ◌<◌, ◌≤◌, [], length, map, IfOk, IfErr, vec_capacity};
ghost use Rattle.sqlite.specs.Held.{state};
ghost use Rattle.store_sql.specs.Transactions.{Rests};
ghost use Rattle.world_changes.specs.Leaving.{AreAtRest};
ghost use Rattle.opening_stores.specs.Brought.{AreAllTurned, IsTurned, SomeAreTurned, TurnsOne};
ghost use Rattle.opening_stores.specs.Judged.{IsWant};
ghost use Rattle.opening_stores.specs.Sharing.{HasRoomOf};
ghost use Rattle.opening_stores.specs.Waiting.{uuid_kept};

use crate::judging::fault_of;
use crate::sharing::{Shares, room_for};
use crate::waiting::{all_waiting, least};
use opening_faults::faults::RecoverFault;
use opening_verdict::verdict::Kept;
use package_tables::fault::Fault;
use package_v1::migration::migrate;
use package_v1::names::are_free;
use sqlite::{Alter, Connection};
use std::alloc::{AllocError, Global};
use uuid::Uuid;

/// Brings a store to the second version where the names that this makes are free, as they are in one of the first.
fn bring<S: Alter>(conn: &mut Connection<S>) -> Result<(), Fault>
    requires { Rests (state S.Store conn.old) }
    ensures { IsTurned S.Store conn.old conn.new result }
{
    if are_free(conn.schema()) {
        return migrate(conn);
    }
    Ok(())
}

/// Brings the store at a place.
fn bring_at<S: Alter + Drop>(stores: &mut Vec<Connection<S>>, at: usize) -> Result<(), Fault>
    requires within { at < length stores.old.items }
    requires rests { AreAtRest S.Store stores.old.items }
    ensures turned { TurnsOne S.Store stores.old.items stores.new.items at result }
{
    let conn = &mut stores[at];
    bring(conn)
}

/// Brings the stores of live packages, in the order of their UUIDs, each in one transaction. All
/// others stay as they are.
///
/// # Errors
///
/// Want of memory, or a store that failed; some stores may have been brought before.
fn bring_live<S: Alter + Drop>(
    stores: &mut Vec<Connection<S>>,
    kept: &[Option<Kept>],
    waiting: Vec<Option<Uuid>>,
) -> Result<(), Fault>
    requires long { length kept.now ≡ length stores.old.items }
    requires waiting { waiting.items ≡ map uuid_kept kept.now }
    requires rests { AreAtRest S.Store stores.old.items }
    ensures rests { AreAtRest S.Store stores.new.items }
    ensures brought { IfOk result (λ _. AreAllTurned S.Store kept.now stores.old.items stores.new.items) }
    ensures failed { IfErr result (λ _. SomeAreTurned S.Store kept.now stores.old.items stores.new.items) }
{
    let mut waiting = waiting;
    for _ in 0..waiting.len() {
        let Some(first) = least(&waiting) else {
            return Ok(());
        };
        bring_at(stores, first.place)?;
        waiting[first.place] = None;
    }
    Ok(())
}

/// Room for all that a world of these stores moves.
#[derive(Drop)]
pub struct Room<S: Alter + Drop> {
    /// For members and strays.
    pub shares: Shares<S>,
    /// For the stores that the world hands out again.
    pub handed_out: Vec<Connection<S>>,
}

/// Room for so many stores.
fn room_of<S: Alter + Drop>(alloc: Global, count: usize) -> Result<Room<S>, AllocError>
    ensures shares { IfOk result (λ room. HasRoomOf room.shares count) }
    ensures members { IfOk result (λ room. room.shares.members.items ≡ []) }
    ensures strays { IfOk result (λ room. room.shares.strays.items ≡ []) }
    ensures empty { IfOk result (λ room. room.handed_out.items ≡ []) }
    ensures handed_out { IfOk result (λ room. count ≤ vec_capacity room.handed_out) }
{
    let shares = room_for(alloc, count)?;
    let handed_out = Vec::with_capacity(alloc, count)?;
    Ok(Room { shares, handed_out })
}

/// All live stores brought to the second version, once there is room for all that is moved.
///
/// # Errors
///
/// Want of memory, or a store that failed; some stores may have been brought before.
pub fn bring_stores<S: Alter + Drop>(
    alloc: Global,
    stores: &mut Vec<Connection<S>>,
    kept: &[Option<Kept>],
) -> Result<Room<S>, RecoverFault>
    requires long { length kept.now ≡ length stores.old.items }
    requires rests { AreAtRest S.Store stores.old.items }
    ensures rests { AreAtRest S.Store stores.new.items }
    ensures brought { IfOk result (λ _. AreAllTurned S.Store kept.now stores.old.items stores.new.items) }
    ensures shares { IfOk result (λ room. HasRoomOf room.shares (length stores.new.items)) }
    ensures members { IfOk result (λ room. room.shares.members.items ≡ []) }
    ensures strays { IfOk result (λ room. room.shares.strays.items ≡ []) }
    ensures empty { IfOk result (λ room. room.handed_out.items ≡ []) }
    ensures handed_out { IfOk result (λ room. length stores.new.items ≤ vec_capacity room.handed_out) }
    ensures failed { IfErr result (λ _. SomeAreTurned S.Store kept.now stores.old.items stores.new.items) }
    ensures fault { IfErr result IsWant }
{
    let room = room_of(alloc, kept.len())?;
    let waiting = all_waiting(alloc, kept)?;
    match bring_live(stores, kept, waiting) {
        Ok(()) => Ok(room),
        Err(fault) => Err(fault_of(fault)),
    }
}
