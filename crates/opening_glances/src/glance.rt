//! What a store says of itself, be it a package or not.
ghost use Rattle.std.specs.Prelude.{option_map};
ghost use Rattle.sqlite.specs.Held.{state};
ghost use Rattle.store_sql.specs.Transactions.{Rests};
ghost use Rattle.package_schema.specs.Heads.{head_said};
ghost use Rattle.package_schema.specs.Looking.{LooksAt};
ghost use Rattle.opening_glances.specs.Glances.{IsGlanceOf, ReadsEitherHead};

use opening_faults::sights::Sight;
use opening_survey::said::{claims_of, head_told};
use opening_survey::survey::no_frame;
use package_schema::claims::claims;
use package_schema::heads::{StoreHead, head_at};
use package_schema::versions::Version;
use package_tables::fault::Fault;
use sqlite::{Alter, Connection};
use std::alloc::Global;

/// Whose the store is, at the version that its head says.
fn either_head<S: Alter>(
    conn: &mut Connection<S>,
    alloc: Global,
) -> Result<Option<StoreHead>, Fault>
    requires { Rests (state S.Store conn.old) }
    ensures { LooksAt (λ db found. ReadsEitherHead db (option_map head_said found))
        (state S.Store conn.old) (state S.Store conn.new) result }
{
    match head_at(conn, alloc, Version::First)? {
        Some(head) => Ok(Some(head)),
        None => head_at(conn, alloc, Version::Second),
    }
}

/// Whose the store is, at either version, and what its receipts claim. Neither items nor the frame are read, so the
/// frame that is told is no store's.
///
/// # Errors
///
/// `OutOfMemory` where a growth was refused, and `StoreFault` where the store failed or a text is no UTF-8. The store
/// is as it was.
pub fn glance<S: Alter>(conn: &mut Connection<S>, alloc: Global) -> Result<Sight, Fault>
    requires { Rests (state S.Store conn.old) }
    ensures { LooksAt IsGlanceOf (state S.Store conn.old) (state S.Store conn.new) result }
{
    let found = either_head(conn, alloc)?;
    let read = claims(conn, alloc)?;
    let told = claims_of(alloc, read)?;
    Ok(Sight {
        head: head_told(found),
        claims: told,
        frame: no_frame(),
    })
}
