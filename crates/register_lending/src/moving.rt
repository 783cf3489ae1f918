//! What moves between two packages, by the words of the model.
ghost use Rattle.std.specs.Prelude.{◌≡◌, IsTrue, OnOk};
ghost use Rattle.sqlite.specs.Held.{state};
ghost use Rattle.sqlite.specs.State.{HasCleanDisk};
ghost use Rattle.store_sql.specs.Staying.{Stays};
ghost use Rattle.store_sql.specs.Transactions.{Rests, Steps};
ghost use Rattle.custody.specs.Homing.{FromClean};
ghost use Rattle.register_lending.specs.Selecting.{TakesOut, CarriesOver};

use identity_register::selection::Selection;
use package_tables::fault::Fault;
use package_tables::receipts::receipt_after;
use sheet_types::refusal::Refusal;
use sqlite::{Alter, Connection, Transaction};

/// A refusal of a transfer as a fault. There is room for what a request that is not refused moves,
/// so a store that has none is one that failed.
fn fault_of(why: Refusal) -> Fault {
    match why {
        Refusal::OutOfMemory => Fault::OutOfMemory,
        _ => Fault::StoreFault,
    }
}

/// Puts what is selected of one package into another, within its transaction.
fn carry<S: Alter>(
    source: &mut Connection<S>,
    tx: &mut Transaction<'_, S>,
    selection: &Selection,
) -> Result<(), Fault>
    requires { Rests (state S.Store source.old) }
    ensures same_reference { tx.new.conn.ghost_name ≡ tx.old.conn.ghost_name }
    ensures source { Stays (state S.Store source.old) (state S.Store source.new) }
    ensures steps { Steps (λ _. FromClean (state S.Store source.new)
        (CarriesOver selection.now (state S.Store source.old).now)) (state S.Store tx.old.conn.now)
        (state S.Store tx.new.conn.now) result }
{
    match transfer::pages::carry_over(source, tx, selection) {
        Ok(()) => Ok(()),
        Err(why) => Err(fault_of(why)),
    }
}

/// The same. A last read shows whether the source is still open.
pub(crate) fn carry_over<S: Alter>(
    source: &mut Connection<S>,
    tx: &mut Transaction<'_, S>,
    selection: &Selection,
) -> Result<(), Fault>
    requires { Rests (state S.Store source.old) }
    ensures same_reference { tx.new.conn.ghost_name ≡ tx.old.conn.ghost_name }
    ensures source { Stays (state S.Store source.old) (state S.Store source.new) }
    ensures opens { HasCleanDisk (state S.Store source.new) → OnOk result
        (IsTrue (state S.Store source.new).is_open) }
    ensures steps { Steps (λ _. FromClean (state S.Store source.new)
        (CarriesOver selection.now (state S.Store source.old).now)) (state S.Store tx.old.conn.now)
        (state S.Store tx.new.conn.now) result }
{
    carry(source, tx, selection)?;
    receipt_after(source, i64::MAX)?;
    Ok(())
}

/// Takes what is selected out of the package.
pub(crate) fn take<S: Alter>(
    tx: &mut Transaction<'_, S>,
    selection: &Selection,
) -> Result<(), Fault>
    ensures same_reference { tx.new.conn.ghost_name ≡ tx.old.conn.ghost_name }
    ensures steps { Steps (λ _. TakesOut selection.now) (state S.Store tx.old.conn.now)
        (state S.Store tx.new.conn.now) result }
{
    match transfer::taking::take(tx, selection) {
        Ok(()) => Ok(()),
        Err(why) => Err(fault_of(why)),
    }
}
