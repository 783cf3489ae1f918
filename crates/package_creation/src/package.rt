//! A package and its transactions.
ghost use Rattle.std.specs.Prelude.{◌≡◌, true, false};

use sqlite::{Alter, Connection, Transaction};

/// A store that holds one package's tables.
#[derive(Drop)]
pub struct Package<S: Alter + Drop> {
    pub conn: Connection<S>,
}

impl<S: Alter + Drop> Package<S> {
    /// The connection alone.
    pub fn into_connection(self) -> Connection<S>
        ensures { result ≡ self.conn }
    {
        let Package { conn } = self;
        conn
    }
}

/// Begins a transaction. Dropped without a commit, it changes nothing.
pub fn begin<S: Alter>(conn: &mut Connection<S>) -> Transaction<'_, S>
    requires { conn.old.in_transaction ≡ false }
    ensures same_reference { result.conn.ghost_name ≡ conn.entry.ghost_name }
    ensures begun { result.conn.now ≡ record conn.old { in_transaction = true } }
{
    conn.transaction()
}
