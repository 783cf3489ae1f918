//! The migration of one store.
ghost use Rattle.std.specs.Prelude.{◌≡◌, IsTrue};
ghost use Rattle.sqlite.specs.Effect.{IsDatabase};
ghost use Rattle.sqlite.specs.State.{HasCleanDisk};
ghost use Rattle.sqlite.specs.Tree.{Trees};
ghost use Rattle.sqlite.specs.Held.{state};
ghost use Rattle.sheet_types.specs.World.{Package};
ghost use Rattle.sheet_types.specs.declared.frame.Frame.{Frame};
ghost use Rattle.store_sql.specs.Transactions.{Rests, Steps, Turns};
ghost use Rattle.package_v1.specs.FirstVersion.{ReadsAtVersionOne, ReadsAtEither};
ghost use Rattle.package_v1.specs.Migrating.{Brings};

use crate::statements::{insert_third_relation, make_third_index, make_third_table, set_version};
use package_tables::fault::Fault;
use sqlite::{Alter, Connection, Transaction};

/// All that the second version has besides.
fn bring<S: Alter>(tx: &mut Transaction<'_, S>) -> Result<(), Fault>
    ensures same_reference { tx.new.conn.ghost_name ≡ tx.old.conn.ghost_name }
    ensures steps { Steps (λ _. Brings) (state S.Store tx.old.conn.now) (state S.Store tx.new.conn.now) result }
{
    make_third_table(tx)?;
    make_third_index(tx)?;
    insert_third_relation(tx)?;
    set_version(tx, 2)
}

/// Brings a store of the first version to the second, in one transaction: the table of the third
/// mapping, its index, its row in the relations, and the version in the head. The store reads as the
/// package that it was.
///
/// # Errors
///
/// Want of memory, or a store that failed. The store holds what it held while it is open; only where
/// the commit itself failed and shut it may a crash leave either version.
pub fn migrate<S: Alter>(conn: &mut Connection<S>) -> Result<(), Fault>
    requires { Rests (state S.Store conn.old) }
    ensures turns { Turns (λ _. Brings) (state S.Store conn.old) (state S.Store conn.new) result }
    ensures left { HasCleanDisk (state S.Store conn.new)
        → IsTrue (state S.Store conn.old).is_open → IsDatabase (state S.Store conn.old).now
        → (f : Frame) (p : Package) → ReadsAtVersionOne f p (state S.Store conn.old).now
        → (trees : Trees) → (state S.Store conn.new).may_leave trees → ReadsAtEither f p trees }
{
    let mut tx = conn.transaction();
    bring(&mut tx)?;
    tx.commit()?;
    Ok(())
}
