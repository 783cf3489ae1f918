//! A store of the first version, made of one of the second: for tests, since the product makes none.
ghost use Rattle.std.specs.Prelude.{◌≡◌};
ghost use Rattle.sqlite.specs.Held.{state};
ghost use Rattle.store_sql.specs.Transactions.{Rests, Steps, Turns};
ghost use Rattle.package_v1.specs.TakingBack.{TakesBack};

use crate::statements::{delete_third_relation, drop_third_table, set_version};
use package_tables::fault::Fault;
use sqlite::{Alter, Connection, Transaction};

/// All that the first version has not.
fn take<S: Alter>(tx: &mut Transaction<'_, S>) -> Result<(), Fault>
    ensures same_reference { tx.new.conn.ghost_name ≡ tx.old.conn.ghost_name }
    ensures steps { Steps (λ _. TakesBack) (state S.Store tx.old.conn.now) (state S.Store tx.new.conn.now) result }
{
    set_version(tx, 1)?;
    delete_third_relation(tx)?;
    drop_third_table(tx)
}

/// Takes a store of the second version that has no row in the third mapping back to the first, in one transaction.
///
/// # Errors
///
/// Want of memory, or a store that failed. The store holds what it held while it is open.
pub fn take_back<S: Alter>(conn: &mut Connection<S>) -> Result<(), Fault>
    requires { Rests (state S.Store conn.old) }
    ensures { Turns (λ _. TakesBack) (state S.Store conn.old) (state S.Store conn.new) result }
{
    let mut tx = conn.transaction();
    take(&mut tx)?;
    tx.commit()?;
    Ok(())
}
