//! Whether a connection may be asked: each look-up outside a transaction wants one that is at rest.
ghost use Rattle.std.specs.Prelude.{IsTrue};
ghost use Rattle.sqlite.specs.Held.{state};
ghost use Rattle.store_sql.specs.Transactions.{Rests};

use sqlite::{Alter, Connection};

/// Whether a connection is not inside a transaction.
pub fn is_at_rest<S: Alter>(conn: &Connection<S>) -> bool
    ensures yes { IsTrue result → Rests (state S.Store conn.now) }
    ensures no { Rests (state S.Store conn.now) → IsTrue result }
{
    conn.is_autocommit()
}
