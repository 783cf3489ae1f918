//! What a change and a look-up of a package ask for, tested first.
ghost use Rattle.std.specs.Prelude.{IfOk};
ghost use Rattle.sqlite.specs.Held.{state};
ghost use Rattle.store_sql.specs.Transactions.{Rests};

use package_creation::package::begin;
use package_tables::fault::Fault;
use sqlite::{Alter, Connection, MemStore, Transaction};
use std::alloc::Global;
use store_sql::resting::is_at_rest;

/// A change of a package, inside a transaction.
pub trait Change<S: Alter> {
    fn make(&self, tx: &mut Transaction<'_, S>) -> Result<(), Fault>;
}

/// Makes a change in a transaction of its own. Tells whether no other stood in its way.
pub fn committed<S: Alter, C: Change<S>>(
    conn: &mut Connection<S>,
    change: &C,
) -> Result<bool, Fault> {
    if !conn.is_autocommit() {
        return Ok(false);
    }
    let mut tx = begin(conn);
    change.make(&mut tx)?;
    tx.commit()?;
    Ok(true)
}

/// Passes a connection that may be asked.
pub fn at_rest<S: Alter>(conn: &Connection<S>) -> Result<(), Fault>
    ensures { IfOk result (λ _. Rests (state S.Store conn.now)) }
{
    if is_at_rest(conn) {
        Ok(())
    } else {
        Err(Fault::StoreFault)
    }
}

/// A store in memory with nothing in it. It has no clause, and neither has `altered`, so that the
/// proof of a test does not carry what the engine promises of each call.
pub fn in_memory(alloc: Global) -> Result<Connection<MemStore>, Fault> {
    Ok(Connection::open_in_memory(alloc)?)
}

/// Carries statements out.
pub fn altered<S: Alter>(conn: &mut Connection<S>, statements: &str) -> Result<(), Fault> {
    conn.execute_batch(statements)?;
    Ok(())
}
