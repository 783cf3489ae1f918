//! Whether rows and identities of a store in its form answer to each other.
ghost use Rattle.sqlite.specs.Held.{state};
ghost use Rattle.store_sql.specs.Transactions.{Rests};
ghost use Rattle.package_tables.specs.Calls.{LooksUp};
ghost use Rattle.opening_survey.specs.Surveying.{TellsTied};

use package_items::tied::are_tied;
use package_items::unique::check_unique;
use package_tables::fault::Fault;
use sqlite::{Alter, Connection};
use std::alloc::Global;

/// Whether rows, identities and mapping rows belong together; that none of them is there twice is made sure of before.
///
/// # Errors
///
/// Want of memory, a store that failed, or a row that is there twice, which the constraints of the tables exclude.
pub(crate) fn has_good_ties<S: Alter>(
    conn: &mut Connection<S>,
    alloc: Global,
) -> Result<bool, Fault>
    requires { Rests (state S.Store conn.old) }
    ensures { LooksUp TellsTied (state S.Store conn.old) (state S.Store conn.new) result }
{
    check_unique(conn, alloc)?;
    let answer = are_tied(conn, alloc)?;
    Ok(answer)
}
