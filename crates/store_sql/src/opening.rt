//! Connections whose tables are known to be in the order of their rowids.

ghost use Rattle.std.specs.Prelude.{◌≤◌, IfOk};
ghost use Rattle.sqlite_trees.specs.View.{IsClean, doubt};
ghost use Rattle.sqlite.specs.Steps.{IsFresh};
ghost use Rattle.sqlite.specs.State.{HasCleanDisk};
ghost use Rattle.sqlite.specs.Held.{state};
ghost use Rattle.store_sql.specs.Transactions.{IsAdopted};

use sqlite::{Alter, Connection, Error, ErrorCode};
use std::alloc::Global;

/// A connection over a store that was just opened. It shows what the store holds, at rest, and each
/// of its tables in the order of its rowids.
pub fn adopt<S: Alter + Drop>(alloc: Global, store: S) -> Result<Connection<S>, (Error, S)>
    requires { IsClean (S.Store.view store) → IsFresh (S.Store.view store) }
    ensures adopted { IfOk result (λ conn. HasCleanDisk (state S.Store conn)
        → IsAdopted (state S.Store conn) (S.Store.view store).trees) }
    ensures clean { IfOk result (λ conn.
        doubt (S.Store.view store).is_clean ≤ doubt (state S.Store conn).is_clean) }
{
    Connection::over(alloc, store)
}

/// The same of a connection that is open, as one over files, which goes back to its last commit.
/// It is refused where the disk has failed under it.
pub fn readopt<S: Alter + Drop>(alloc: Global, conn: Connection<S>) -> Result<Connection<S>, Error>
    ensures adopted { IfOk result (λ new. HasCleanDisk (state S.Store new)
        → IsAdopted (state S.Store new) (state S.Store conn).committed.trees) }
    ensures clean { IfOk result (λ new.
        doubt (state S.Store conn).is_clean ≤ doubt (state S.Store new).is_clean) }
{
    let store = conn.into_store();
    if store.is_broken() {
        return Err(Error::SqliteFailure(ErrorCode::Closed));
    }
    match adopt(alloc, store) {
        Ok(conn) => Ok(conn),
        Err((error, _)) => Err(error),
    }
}
