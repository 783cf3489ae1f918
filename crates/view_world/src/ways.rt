//! The way of one item through the packages of a world.
ghost use Rattle.std.specs.Prelude.{◌≡◌, length, option_map, string_bytes, Ok, OnOk};
ghost use Rattle.std.specs.Bool.{then_some};
ghost use Rattle.std.specs.List.{list_any};
ghost use Rattle.view_history.specs.Stores.{AreAtRest, AsksStores};
ghost use Rattle.view_history.specs.Told.{ledger_of};
ghost use Rattle.view_json.specs.Forms.{told_way};
ghost use Rattle.view_text.specs.Ways.{speaks_of};
ghost use Rattle.view_world.specs.Looks.{Asks, IsLookedAt, LeavesOpen, LooksInto};
ghost use Rattle.world.specs.Worlds.{TellsOf};
ghost use Rattle.view_world.specs.Told.{way_answer};

use crate::ledgers::ledger_in;
use crate::usable::{are_ready, count_of};
use package_tables::fault::Fault;
use sqlite::{Alter, Connection};
use std::alloc::Global;
use uuid::Uuid;
use view_history::ledgers::ledger_of;
use view_json::forms::{Form, told_way};
use world::world::World;

/// The way of an item by the receipts of the packages of these stores.
fn way_by<S: Alter + Drop>(
    stores: &mut Vec<Connection<S>>,
    alloc: Global,
    form: Form,
    identity: Uuid,
) -> Result<Option<String>, Fault>
    requires { AreAtRest S.Store stores.old.items }
    ensures { AsksStores S.Store (λ packages found. option_map string_bytes found
        ≡ then_some (list_any (speaks_of identity) (ledger_of packages))
        (told_way form identity (ledger_of packages))) stores.old.items stores.new.items result }
{
    let ledger = ledger_of(stores, alloc)?;
    let found = told_way(alloc, form, &ledger, identity)?;
    Ok(found)
}

/// The same, where there are as many stores as packages.
fn way_in<S: Alter + Drop>(
    count: Result<usize, Fault>,
    stores: &mut Vec<Connection<S>>,
    alloc: Global,
    form: Form,
    identity: Uuid,
) -> Result<Option<String>, Fault>
    ensures counted { OnOk result (count ≡ Ok (length stores.old.items)) }
    ensures asked { Asks S.Store (λ packages found. option_map string_bytes found
        ≡ then_some (list_any (speaks_of identity) (ledger_of packages))
        (told_way form identity (ledger_of packages))) stores.old.items stores.new.items result }
{
    let count = count?;
    if !are_ready(stores, count) {
        return Err(Fault::StoreFault);
    }
    let found = way_by(stores, alloc, form, identity)?;
    Ok(found)
}

/// The way of an item as lines: one for each receipt that names its identity, by number, and where it stands now.
/// `None` where no receipt names it. All receipts are in memory at once, as they are while a world is opened. The
/// world ends with it; its stores are handed on.
///
/// # Errors
///
/// Want of memory, a store that failed, or a world that has.
pub fn way_of<S: Alter + Drop>(
    alloc: Global,
    world: World<S>,
    form: Form,
    identity: Uuid,
) -> (Result<Option<String>, Fault>, Vec<Connection<S>>)
    ensures { LooksInto S.Store (λ w found. option_map string_bytes found
        ≡ way_answer form w identity) world result.1.items result.0 }
{
    let count = count_of(alloc, &world);
    let mut stores = world.into_stores();
    let found = way_in(count, &mut stores, alloc, form, identity);
    (found, stores)
}

/// The same way, of a world that stays.
///
/// # Errors
///
/// Those of `ledger_in`.
pub fn way_text_in<S: Alter + Drop>(
    alloc: Global,
    world: &mut World<S>,
    form: Form,
    identity: Uuid,
) -> Result<Option<String>, Fault>
    ensures told { TellsOf S.Store (λ w found. option_map string_bytes found ≡ way_answer form w identity)
        world.old world.new result }
    ensures read { IsLookedAt S.Store world.old world.new }
    ensures opens { LeavesOpen S.Store world.old world.new result }
{
    let ledger = ledger_in(alloc, world)?;
    let found = told_way(alloc, form, &ledger, identity)?;
    Ok(found)
}
