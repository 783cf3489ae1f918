//! What a store says of itself as one of the first version, as the opening takes it.
ghost use Rattle.sqlite.specs.Held.{state};
ghost use Rattle.store_sql.specs.Transactions.{Rests};
ghost use Rattle.package_schema.specs.Looking.{LooksAt};
ghost use Rattle.opening_v1.specs.Surveying.{IsFirstSaid};

use opening_survey::said::{Said, head_told, passages_of};
use package_schema::claims::claims;
use package_schema::heads::head_at;
use package_schema::versions::Version;
use package_tables::fault::Fault;
use sqlite::{Alter, Connection};
use std::alloc::Global;

/// Whose the store is, where it is one of the first version, and what its splits and merges claim.
///
/// # Errors
///
/// Those of the two looks.
pub(crate) fn read_first_said<S: Alter>(
    conn: &mut Connection<S>,
    alloc: Global,
) -> Result<Said, Fault>
    requires { Rests (state S.Store conn.old) }
    ensures { LooksAt IsFirstSaid (state S.Store conn.old) (state S.Store conn.new) result }
{
    let found = head_at(conn, alloc, Version::First)?;
    let read = claims(conn, alloc)?;
    let told = passages_of(alloc, read)?;
    Ok(Said {
        head: head_told(found),
        claims: told,
    })
}
