//! The receipts of all packages.
ghost use Rattle.std.specs.Prelude.{◌≡◌, flat_map, IfOk};
ghost use Rattle.sqlite.specs.Held.{state};
ghost use Rattle.store_sql.specs.Transactions.{Rests, Looks};
ghost use Rattle.sheet_types.specs.Ordered.{arranged};
ghost use Rattle.sheet_types.specs.World.{receipt_key};
ghost use Rattle.identity_register.specs.Calls.{Sees};
ghost use Rattle.view_history.specs.Stores.{AreAtRest, AsksStores};
ghost use Rattle.view_history.specs.Told.{ledger_of};

use crate::asking::ask_each;
use package_receipts::receipts;
use package_tables::fault::Fault;
use sheet_types::receipt::Receipt;
use sqlite::{Alter, Connection};
use std::alloc::{AllocError, Global};
use world::asking::Question;

/// The receipts of the package of a store, in the order of their numbers.
fn receipts_of<S: Alter>(conn: &mut Connection<S>, alloc: Global) -> Result<Vec<Receipt>, Fault>
    requires { Rests (state S.Store conn.old) }
    ensures { Looks (Sees (λ f p found. found.items ≡ p.receipts)) (state S.Store conn.old) (state S.Store conn.new)
        result }
{
    match receipts(conn, alloc)? {
        Some(found) => Ok(found),
        None => Err(Fault::StoreFault),
    }
}

/// All receipts of a package, in the order of their numbers.
#[derive(Clone, Copy)]
pub struct ReceiptsOf;

impl<S: Alter> Question<S, Vec<Receipt>> for ReceiptsOf {
    ghost tells = { λ question p found. found.items ≡ p.receipts };

    fn ask(&self, conn: &mut Connection<S>, alloc: Global) -> Result<Vec<Receipt>, Fault> {
        receipts_of(conn, alloc)
    }
}

/// The receipts of all lists, in turn.
///
/// # Errors
///
/// Want of memory.
pub fn all_of(alloc: Global, lists: Vec<Vec<Receipt>>) -> Result<Vec<Receipt>, AllocError>
    ensures { IfOk result (λ all. all.items ≡ flat_map (λ list. list.items) lists.items) }
{
    let mut all = Vec::new(alloc);
    for mut list in lists {
        all.append(&mut list)?;
    }
    Ok(all)
}

/// The receipts in the order of their numbers.
///
/// # Errors
///
/// Want of memory.
pub fn in_order(receipts: Vec<Receipt>) -> Result<Vec<Receipt>, AllocError>
    ensures { IfOk result (λ ledger. ledger.items ≡ arranged receipt_key receipts.items) }
{
    let mut ledger = receipts;
    ledger.sort_by_key(|receipt: &Receipt| receipt.seq)?;
    Ok(ledger)
}

/// The receipts of the packages of stores, in the order of their numbers, with all that they moved.
/// All of them are in memory at once, as they are while a world is opened.
///
/// # Errors
///
/// Want of memory, a store that failed, or rows that no package has. All stores are as they were.
pub fn ledger_of<S: Alter + Drop>(
    stores: &mut Vec<Connection<S>>,
    alloc: Global,
) -> Result<Vec<Receipt>, Fault>
    requires { AreAtRest S.Store stores.old.items }
    ensures { AsksStores S.Store (λ packages ledger. ledger.items ≡ ledger_of packages) stores.old.items
        stores.new.items result }
{
    let lists = ask_each(stores, alloc, &ReceiptsOf)?;
    let all = all_of(alloc, lists)?;
    let ledger = in_order(all)?;
    Ok(ledger)
}
