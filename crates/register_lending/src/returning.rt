//! What a merge writes: the store of the parent, in one transaction with all that the child holds,
//! its receipts, and the receipt of the merge. The child is only read.
ghost use Rattle.std.specs.Prelude.{◌≡◌, Err, IsTrue, OnOk};
ghost use Rattle.sqlite.specs.Held.{state};
ghost use Rattle.sqlite.specs.State.{HasCleanDisk, Survives};
ghost use Rattle.store_sql.specs.Staying.{Stays};
ghost use Rattle.store_sql.specs.Transactions.{Rests, Steps, Turns};
ghost use Rattle.package_tables.specs.declared.fault.Fault.{Fault};
ghost use Rattle.register_lending.specs.declared.turn_fault.TurnFault.TheVariants.{Before};
ghost use Rattle.register_lending.specs.Lending.{BringsBoth, TakesHome};
ghost use Rattle.custody.specs.Homing.{FromClean};

use crate::moving::carry_over;
use crate::turn_fault::TurnFault;
use custody::enter;
use custody::homing::bring_home;
use identity_register::dating::date_contents;
use identity_register::selection::Selection;
use package_tables::fault::Fault;
use sheet_types::receipt::Receipt;
use sqlite::{Alter, Connection, Transaction};

/// Puts what is selected of a child and all its receipts into its parent.
fn bring_both<S: Alter>(
    child: &mut Connection<S>,
    tx: &mut Transaction<'_, S>,
    selection: &Selection,
) -> Result<(), Fault>
    requires { Rests (state S.Store child.old) }
    ensures same_reference { tx.new.conn.ghost_name ≡ tx.old.conn.ghost_name }
    ensures child { Stays (state S.Store child.old) (state S.Store child.new) }
    ensures opens { HasCleanDisk (state S.Store child.new) → OnOk result (IsTrue (state S.Store child.new).is_open) }
    ensures steps { Steps (λ _. FromClean (state S.Store child.new)
        (BringsBoth selection.now (state S.Store child.old).now)) (state S.Store tx.old.conn.now)
        (state S.Store tx.new.conn.now) result }
{
    carry_over(child, tx, selection)?;
    bring_home(child, tx)
}

/// The same, with the receipt of the merge, whose moment becomes that of the last change.
fn take_home_inside<S: Alter>(
    child: &mut Connection<S>,
    tx: &mut Transaction<'_, S>,
    selection: &Selection,
    receipt: &Receipt,
) -> Result<(), Fault>
    requires { Rests (state S.Store child.old) }
    ensures same_reference { tx.new.conn.ghost_name ≡ tx.old.conn.ghost_name }
    ensures child { Stays (state S.Store child.old) (state S.Store child.new) }
    ensures opens { HasCleanDisk (state S.Store child.new) → OnOk result (IsTrue (state S.Store child.new).is_open) }
    ensures steps { Steps (λ _. FromClean (state S.Store child.new)
        (TakesHome receipt.now selection.now (state S.Store child.old).now)) (state S.Store tx.old.conn.now)
        (state S.Store tx.new.conn.now) result }
{
    bring_both(child, tx, selection)?;
    enter(tx, receipt)?;
    date_contents(tx, receipt.at.as_str())
}

/// Puts all that a child holds, its receipts and the receipt of the merge into the store of its
/// parent, in one transaction. The child is only read.
///
/// # Errors
///
/// Want of memory, or a store that failed, before the commit or in it (`TurnFault`).
pub fn take_home<S: Alter>(
    child: &mut Connection<S>,
    conn: &mut Connection<S>,
    selection: &Selection,
    receipt: &Receipt,
) -> Result<(), TurnFault>
    requires child { Rests (state S.Store child.old) }
    requires parent { Rests (state S.Store conn.old) }
    ensures child { Stays (state S.Store child.old) (state S.Store child.new) }
    ensures opens { HasCleanDisk (state S.Store child.new) → OnOk result (IsTrue (state S.Store child.new).is_open) }
    ensures turns { Turns (λ _. FromClean (state S.Store child.new)
        (TakesHome receipt.now selection.now (state S.Store child.old).now)) (state S.Store conn.old)
        (state S.Store conn.new) result }
    ensures was_open { IsTrue (state S.Store conn.new).is_open → IsTrue (state S.Store conn.old).is_open }
    ensures unharmed { (fault : Fault) → result ≡ Err (Before fault)
        → Survives (state S.Store conn.old) (state S.Store conn.new) (λ _. ⊥) }
{
    let mut tx = conn.transaction();
    take_home_inside(child, &mut tx, selection, receipt)?;
    tx.commit()?;
    Ok(())
}
