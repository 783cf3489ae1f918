//! What a split writes: the store of the child, which is made, filled and committed first, and then
//! the store of the parent, in one transaction with the receipt.
ghost use Rattle.std.specs.Prelude.{◌≡◌, Err, IsTrue, OnOk};
ghost use Rattle.sqlite.specs.Held.{state};
ghost use Rattle.sqlite.specs.State.{HasCleanDisk, Survives};
ghost use Rattle.store_sql.specs.Staying.{Stays};
ghost use Rattle.store_sql.specs.Transactions.{Rests, Steps, Turns};
ghost use Rattle.package_tables.specs.declared.fault.Fault.{Fault};
ghost use Rattle.register_lending.specs.declared.turn_fault.TurnFault.TheVariants.{Before};
ghost use Rattle.register_lending.specs.Lending.{Fills, Lends};
ghost use Rattle.custody.specs.Homing.{FromClean};

use crate::moving::{carry_over, take};
use crate::turn_fault::TurnFault;
use custody::enter;
use identity_register::dating::date_contents;
use identity_register::selection::Selection;
use package_tables::fault::Fault;
use sheet_types::receipt::Receipt;
use sqlite::{Alter, Connection, Transaction};

/// Puts what is selected of one package into another, at a moment.
fn fill_inside<S: Alter>(
    source: &mut Connection<S>,
    tx: &mut Transaction<'_, S>,
    selection: &Selection,
    at: &str,
) -> Result<(), Fault>
    requires { Rests (state S.Store source.old) }
    ensures same_reference { tx.new.conn.ghost_name ≡ tx.old.conn.ghost_name }
    ensures source { Stays (state S.Store source.old) (state S.Store source.new) }
    ensures opens { HasCleanDisk (state S.Store source.new) → OnOk result
        (IsTrue (state S.Store source.new).is_open) }
    ensures steps { Steps (λ _. FromClean (state S.Store source.new)
        (Fills selection.now at.now (state S.Store source.old).now)) (state S.Store tx.old.conn.now)
        (state S.Store tx.new.conn.now) result }
{
    carry_over(source, tx, selection)?;
    date_contents(tx, at)
}

/// Fills the store of a child with what is selected of its parent, in one transaction. The parent is only read.
pub fn fill<S: Alter>(
    source: &mut Connection<S>,
    conn: &mut Connection<S>,
    selection: &Selection,
    at: &str,
) -> Result<(), Fault>
    requires source { Rests (state S.Store source.old) }
    requires child { Rests (state S.Store conn.old) }
    ensures source { Stays (state S.Store source.old) (state S.Store source.new) }
    ensures opens { HasCleanDisk (state S.Store source.new) → OnOk result
        (IsTrue (state S.Store source.new).is_open) }
    ensures turns { Turns (λ _. FromClean (state S.Store source.new)
        (Fills selection.now at.now (state S.Store source.old).now)) (state S.Store conn.old) (state S.Store conn.new)
        result }
{
    let mut tx = conn.transaction();
    fill_inside(source, &mut tx, selection, at)?;
    tx.commit()?;
    Ok(())
}

/// Takes what is selected out of a package and enters the receipt, whose moment becomes that of the last change.
fn lend_inside<S: Alter>(
    tx: &mut Transaction<'_, S>,
    selection: &Selection,
    receipt: &Receipt,
) -> Result<(), Fault>
    ensures same_reference { tx.new.conn.ghost_name ≡ tx.old.conn.ghost_name }
    ensures steps { Steps (λ _. Lends receipt.now selection.now) (state S.Store tx.old.conn.now)
        (state S.Store tx.new.conn.now) result }
{
    take(tx, selection)?;
    enter(tx, receipt)?;
    date_contents(tx, receipt.at.as_str())
}

/// Takes what is selected out of the store of a parent, with the receipt of the split, in one transaction.
///
/// # Errors
///
/// Want of memory, or a store that failed, before the commit or in it (`TurnFault`).
pub fn lend<S: Alter>(
    conn: &mut Connection<S>,
    selection: &Selection,
    receipt: &Receipt,
) -> Result<(), TurnFault>
    requires { Rests (state S.Store conn.old) }
    ensures turns { Turns (λ _. Lends receipt.now selection.now) (state S.Store conn.old) (state S.Store conn.new)
        result }
    ensures was_open { IsTrue (state S.Store conn.new).is_open → IsTrue (state S.Store conn.old).is_open }
    ensures unharmed { (fault : Fault) → result ≡ Err (Before fault)
        → Survives (state S.Store conn.old) (state S.Store conn.new) (λ _. ⊥) }
{
    let mut tx = conn.transaction();
    lend_inside(&mut tx, selection, receipt)?;
    tx.commit()?;
    Ok(())
}
