//! The change of one package that a command asks for, with its receipt, in one transaction of the package's store.
ghost use Rattle.std.specs.Prelude.{◌≡◌, Err, IsTrue};
ghost use Rattle.sqlite.specs.Held.{state};
ghost use Rattle.sqlite.specs.State.{Survives};
ghost use Rattle.store_sql.specs.Transactions.{Rests, Steps, Turns};
ghost use Rattle.identity_register.specs.Calls.{Becomes};
ghost use Rattle.package_tables.specs.declared.fault.Fault.{Fault};
ghost use Rattle.register_lending.specs.declared.turn_fault.TurnFault.TheVariants.{Before};
ghost use Rattle.world_members.specs.Carrying.{MakesChange, Fits, after_command, SaysMoment, KeepsNumbersBy};

use custody::enter;
use identity_register::additions::add;
use identity_register::changes::{delete, link, unlink};
use identity_register::dating::date_contents;
use package_tables::fault::Fault;
use register_lending::turn_fault::TurnFault;
use sheet_types::command::{Command, Relation};
use sheet_types::receipt::Receipt;
use sqlite::{Alter, Connection, Transaction};

/// Makes the change that a command asks for, without its receipt. A split and a merge are not one
/// change of one package, and are a fault here.
fn make_change<S: Alter>(tx: &mut Transaction<'_, S>, command: &Command) -> Result<(), Fault>
    ensures same_reference { tx.new.conn.ghost_name ≡ tx.old.conn.ghost_name }
    ensures steps { Steps (λ _. MakesChange command.now) (state S.Store tx.old.conn.now)
        (state S.Store tx.new.conn.now) result }
{
    match command {
        Command::Add {
            identity,
            content,
            ..
        } => add(tx, *identity, content),
        Command::Delete { identity, .. } => delete(tx, *identity),
        Command::Link {
            mapping,
            base,
            other,
            ..
        } => link(tx, Relation::new(*mapping, *base, *other)),
        Command::Unlink {
            mapping,
            base,
            other,
            ..
        } => unlink(tx, Relation::new(*mapping, *base, *other)),
        Command::Split { .. } | Command::Merge { .. } => Err(Fault::StoreFault),
    }
}

/// Makes the change that a command asks for, enters its receipt, and makes the receipt's moment
/// that of the last change.
pub(crate) fn carry_out<S: Alter>(
    tx: &mut Transaction<'_, S>,
    command: &Command,
    receipt: &Receipt,
) -> Result<(), Fault>
    ensures same_reference { tx.new.conn.ghost_name ≡ tx.old.conn.ghost_name }
    ensures steps { Steps (λ _. Becomes (Fits receipt.now command.now) (after_command receipt.now command.now))
        (state S.Store tx.old.conn.now) (state S.Store tx.new.conn.now) result }
    ensures dated { Steps (λ _. SaysMoment receipt.now command.now) (state S.Store tx.old.conn.now)
        (state S.Store tx.new.conn.now) result }
    ensures numbers { Steps (λ _. KeepsNumbersBy receipt.now command.now) (state S.Store tx.old.conn.now)
        (state S.Store tx.new.conn.now) result }
{
    make_change(tx, command)?;
    enter(tx, receipt)?;
    date_contents(tx, receipt.at.as_str())
}

/// Carries a command out in the store of its package, with its receipt, in one transaction. The
/// receipt's moment becomes that of the last change. What stands before and after keeps its local number.
///
/// # Errors
///
/// Want of memory, or a store that failed. The package is as it was, unless the commit itself
/// failed and shut the store: then a crash may leave either. A split or a merge is a fault of the
/// store.
pub fn apply_to_package<S: Alter>(
    conn: &mut Connection<S>,
    command: &Command,
    receipt: &Receipt,
) -> Result<(), TurnFault>
    requires { Rests (state S.Store conn.old) }
    ensures turns { Turns (λ _. Becomes (Fits receipt.now command.now) (after_command receipt.now command.now))
        (state S.Store conn.old) (state S.Store conn.new) result }
    ensures dated { Turns (λ _. SaysMoment receipt.now command.now) (state S.Store conn.old) (state S.Store conn.new)
        result }
    ensures numbers { Turns (λ _. KeepsNumbersBy receipt.now command.now) (state S.Store conn.old)
        (state S.Store conn.new) result }
    ensures was_open { IsTrue (state S.Store conn.new).is_open → IsTrue (state S.Store conn.old).is_open }
    ensures unharmed { (fault : Fault) → result ≡ Err (Before fault)
        → Survives (state S.Store conn.old) (state S.Store conn.new) (λ _. ⊥) }
{
    let mut tx = conn.transaction();
    carry_out(&mut tx, command, receipt)?;
    tx.commit()?;
    Ok(())
}
