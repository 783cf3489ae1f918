//! What a world tells of itself: its live packages, and all its receipts.
ghost use Rattle.std.specs.Prelude.{◌≡◌, IfOk, MatchResult, Ok, OnOk, length, map};
ghost use Rattle.sheet_types.specs.World.{World as ModelWorld};
ghost use Rattle.view_history.specs.Told.{ledger_of};
ghost use Rattle.view_world.specs.Looks.{Asks, IsLookedAt, LooksInto};
ghost use Rattle.world.specs.Worlds.{StandsFor, TellsOf};
ghost use Rattle.commands.specs.Registers.{IsRegisterOf};

use command_tidying::register::Register;
use package_tables::fault::Fault;
use sheet_types::receipt::Receipt;
use sqlite::{Alter, Connection};
use std::alloc::{AllocError, Global};
use uuid::Uuid;
use view_history::ledgers::ledger_of;
use view_world::ledgers::ledger_in;
use view_world::usable::{are_ready, usable};
use world::reading::PackageSight;
use world::world::World;

/// The UUIDs of packages.
fn uuids_of(alloc: Global, sights: &[PackageSight]) -> Result<Vec<Uuid>, AllocError>
    ensures { IfOk result (λ uuids. uuids.items ≡ map (λ s. s.uuid) sights.now) }
{
    sights.iter().map(|sight| sight.uuid).collect(alloc)
}

/// The live packages of a world that has not failed.
fn live_of<S: Alter + Drop>(alloc: Global, world: &World<S>) -> Result<Vec<Uuid>, Fault>
    ensures { IfOk result (λ live. (w : ModelWorld) → StandsFor S.Store world.now w
        → live.items ≡ map (λ p. p.uuid) w.packages) }
{
    usable(world)?;
    let sights = world.packages(alloc)?;
    let live = uuids_of(alloc, &sights)?;
    Ok(live)
}

/// The receipts of the packages of these stores, where there are as many stores as packages.
fn receipts_of<S: Alter + Drop>(
    live: &Result<Vec<Uuid>, Fault>,
    stores: &mut Vec<Connection<S>>,
    alloc: Global,
) -> Result<Vec<Receipt>, Fault>
    ensures counted { OnOk result (MatchResult live.now (λ all. length all.items ≡ length stores.old.items)
        (λ fault. ⊥)) }
    ensures asked { Asks S.Store (λ packages receipts. receipts.items ≡ ledger_of packages) stores.old.items
        stores.new.items result }
{
    let count = match live {
        Ok(all) => all.len(),
        Err(fault) => return Err(*fault),
    };
    if !are_ready(stores, count) {
        return Err(Fault::StoreFault);
    }
    let receipts = ledger_of(stores, alloc)?;
    Ok(receipts)
}

/// The two together.
fn join_register(
    live: Result<Vec<Uuid>, Fault>,
    receipts: Result<Vec<Receipt>, Fault>,
) -> Result<Register, Fault>
    ensures { IfOk result (λ register. (live ≡ Ok register.live) × (receipts ≡ Ok register.receipts)) }
{
    let live = live?;
    let receipts = receipts?;
    Ok(Register { live, receipts })
}

/// What a world tells of itself. It ends with it, and its stores are handed on, only read. All
/// receipts are in memory at once, as they are while a world is opened.
///
/// # Errors
///
/// Want of memory, a store that failed, or a world that has.
pub fn register_of<S: Alter + Drop>(
    alloc: Global,
    world: World<S>,
) -> (Result<Register, Fault>, Vec<Connection<S>>)
    ensures { LooksInto S.Store IsRegisterOf world result.1.items result.0 }
{
    let live = live_of(alloc, &world);
    let mut stores = world.into_stores();
    let receipts = receipts_of(&live, &mut stores, alloc);
    (join_register(live, receipts), stores)
}

/// The same of a world that stays.
///
/// # Errors
///
/// Want of memory, a store that failed, or a world that has. The world has not failed by that.
pub fn register_in<S: Alter + Drop>(alloc: Global, world: &mut World<S>) -> Result<Register, Fault>
    ensures told { TellsOf S.Store IsRegisterOf world.old world.new result }
    ensures read { IsLookedAt S.Store world.old world.new }
{
    let live = live_of(alloc, world);
    let receipts = ledger_in(alloc, world);
    join_register(live, receipts)
}
