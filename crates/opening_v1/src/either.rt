//! What the opening of a world sees of a store of either version.
ghost use Rattle.sqlite.specs.Held.{state};
ghost use Rattle.store_sql.specs.Transactions.{Rests};
ghost use Rattle.package_schema.specs.Looking.{LooksAt};
ghost use Rattle.opening_v1.specs.Either.{IsSeenAtEither};

use crate::survey::survey_first;
use opening_survey::survey::survey;
use opening_verdict::seen::StoreSeen;
use package_schema::heads::head_at;
use package_schema::versions::Version;
use package_tables::fault::Fault;
use sqlite::{Alter, Connection};
use std::alloc::Global;

/// What the opening of a world sees of a store: as one of the first version where its head says
/// that version, and as one of the second in every other case.
///
/// # Errors
///
/// Those of the look at the head, and of either survey. The store is as it was.
pub fn survey_either<S: Alter>(conn: &mut Connection<S>, alloc: Global) -> Result<StoreSeen, Fault>
    requires { Rests (state S.Store conn.old) }
    ensures { LooksAt IsSeenAtEither (state S.Store conn.old) (state S.Store conn.new) result }
{
    match head_at(conn, alloc, Version::First)? {
        Some(_) => survey_first(conn, alloc),
        None => survey(conn, alloc),
    }
}
