//! The ledger of the packages of a world.
ghost use Rattle.std.specs.Prelude.{◌≡◌, length, string_bytes, Ok, OnOk};
ghost use Rattle.view_history.specs.Stores.{AreAtRest, AsksStores};
ghost use Rattle.view_history.specs.Told.{ledger_of};
ghost use Rattle.view_json.specs.Forms.{told_excerpt};
ghost use Rattle.sheet_types.specs.World.{receipts_of};
ghost use Rattle.world.specs.Worlds.{TellsOf};
ghost use Rattle.view_world.specs.Looks.{Asks, IsLookedAt, LeavesOpen, LooksInto};
ghost use Rattle.view_world.specs.Told.{log_text};

use crate::asking::ask_each;
use crate::usable::{are_ready, count_of};
use package_tables::fault::Fault;
use sheet_types::receipt::Receipt;
use sqlite::{Alter, Connection};
use std::alloc::Global;
use view_history::ledgers::{ReceiptsOf, all_of, in_order, ledger_of};
use view_json::forms::{Form, told_excerpt};
use view_text::ledgers::Excerpt;
use world::world::World;

/// What is told of the receipts of the packages of these stores.
fn log_by<S: Alter + Drop>(
    stores: &mut Vec<Connection<S>>,
    alloc: Global,
    form: Form,
    excerpt: &Excerpt<'_>,
) -> Result<String, Fault>
    requires { AreAtRest S.Store stores.old.items }
    ensures { AsksStores S.Store
        (λ packages text. string_bytes text ≡ told_excerpt form (ledger_of packages) excerpt.now)
        stores.old.items stores.new.items result }
{
    let ledger = ledger_of(stores, alloc)?;
    let text = told_excerpt(alloc, form, &ledger, excerpt)?;
    Ok(text)
}

/// The same, where there are as many stores as packages.
fn log_in<S: Alter + Drop>(
    count: Result<usize, Fault>,
    stores: &mut Vec<Connection<S>>,
    alloc: Global,
    form: Form,
    excerpt: &Excerpt<'_>,
) -> Result<String, Fault>
    ensures counted { OnOk result (count ≡ Ok (length stores.old.items)) }
    ensures asked { Asks S.Store
        (λ packages text. string_bytes text ≡ told_excerpt form (ledger_of packages) excerpt.now)
        stores.old.items stores.new.items result }
{
    let count = count?;
    if !are_ready(stores, count) {
        return Err(Fault::StoreFault);
    }
    let text = log_by(stores, alloc, form, excerpt)?;
    Ok(text)
}

/// The receipts of a world that are asked for, by number. All receipts are in memory at once, as they are while a
/// world is opened. The world ends with it; its stores are handed on.
///
/// # Errors
///
/// Want of memory, a store that failed, or a world that has.
pub fn log_of<S: Alter + Drop>(
    alloc: Global,
    world: World<S>,
    form: Form,
    excerpt: &Excerpt<'_>,
) -> (Result<String, Fault>, Vec<Connection<S>>)
    ensures { LooksInto S.Store (λ w text. string_bytes text ≡ log_text form w excerpt.now) world
        result.1.items result.0 }
{
    let count = count_of(alloc, &world);
    let mut stores = world.into_stores();
    let text = log_in(count, &mut stores, alloc, form, excerpt);
    (text, stores)
}

/// All receipts of a world, by number. They are in memory at once. The world stays.
///
/// # Errors
///
/// Want of memory, a store that failed, or a world that has. The world has not failed by that.
pub fn ledger_in<S: Alter + Drop>(
    alloc: Global,
    world: &mut World<S>,
) -> Result<Vec<Receipt>, Fault>
    ensures told { TellsOf S.Store (λ w ledger. ledger.items ≡ receipts_of w) world.old world.new result }
    ensures read { IsLookedAt S.Store world.old world.new }
    ensures opens { LeavesOpen S.Store world.old world.new result }
{
    let lists = ask_each(alloc, world, &ReceiptsOf)?;
    let all = all_of(alloc, lists)?;
    let ledger = in_order(all)?;
    Ok(ledger)
}

/// The receipts of a world that are asked for, by number. The world stays.
///
/// # Errors
///
/// Those of `ledger_in`.
pub fn log_text_in<S: Alter + Drop>(
    alloc: Global,
    world: &mut World<S>,
    form: Form,
    excerpt: &Excerpt<'_>,
) -> Result<String, Fault>
    ensures told { TellsOf S.Store (λ w text. string_bytes text ≡ log_text form w excerpt.now) world.old
        world.new result }
    ensures read { IsLookedAt S.Store world.old world.new }
    ensures opens { LeavesOpen S.Store world.old world.new result }
{
    let ledger = ledger_in(alloc, world)?;
    let told = told_excerpt(alloc, form, &ledger, excerpt)?;
    Ok(told)
}
