//! What a whole package holds, told as receipts tell it: an item by its size and its digest. One
//! content is in memory at a time.
//! An error is want of memory, a store that failed, or rows that no package has; the store holds what it held.
ghost use Rattle.std.specs.Prelude.{◌≡◌, map, IfOk, IsTrue, IsPermutation};
ghost use Rattle.std.specs.List.{AllZip};
ghost use Rattle.sqlite.specs.State.{HasCleanDisk};
ghost use Rattle.sqlite.specs.Held.{state};
ghost use Rattle.store_sql.specs.Staying.{Stays};
ghost use Rattle.store_sql.specs.Transactions.{Rests, Looks};
ghost use Rattle.sheet_types.specs.Ordered.{IsArranged};
ghost use Rattle.sheet_types.specs.World.{item_moved, link_moved, moved_key};
ghost use Rattle.package_tables.specs.Calls.{Answers, LooksUp};
ghost use Rattle.identity_register.specs.Calls.{Sees};
ghost use Rattle.identity_register.specs.Told.{IsToldOf};

use crate::look_ups::content_of;
use crate::stored_texts::stored_uuid;
use crate::whole::links_by;
use package_tables::fault::Fault;
use package_tables::identities::all_identities;
use package_tables::rows::IdentityRow;
use sheet_types::command::Relation;
use sheet_types::receipt::Moved;
use sheet_types::sorting::moved_is_before;
use sqlite::{Alter, Connection};
use std::alloc::{AllocError, Global};

/// What a receipt tells of the item of an identity row.
fn told_at<S: Alter>(conn: &mut Connection<S>, row: &IdentityRow) -> Result<Moved, Fault>
    requires { Rests (state S.Store conn.old) }
    ensures { LooksUp (IsToldOf row.now) (state S.Store conn.old) (state S.Store conn.new) result }
{
    let identity = stored_uuid(row.uuid.as_str())?;
    let content = content_of(conn, row.kind, row.local_id)?;
    Ok(Moved::of_content(identity, &content))
}

/// What receipts tell of the items of identity rows, each after the other.
fn told_of<S: Alter>(
    conn: &mut Connection<S>,
    rows: &[IdentityRow],
    alloc: Global,
) -> Result<Vec<Moved>, Fault>
    requires { Rests (state S.Store conn.old) }
    ensures stays { Stays (state S.Store conn.old) (state S.Store conn.new) }
    ensures told { HasCleanDisk (state S.Store conn.new) → IsTrue (state S.Store conn.old).is_open
        → IfOk result (λ told. IsTrue (state S.Store conn.new).is_open
        × Answers (λ t told. AllZip (λ r. IsToldOf r t) rows.now told.items) told (state S.Store conn.old).now
        (state S.Store conn.new).now) }
{
    let mut told = Vec::new(alloc);
    for row in rows {
        told.push(told_at(conn, row)?)?;
    }
    Ok(told)
}

/// Items as receipts tell them, by kind and identity; a fault where one is there twice, as in no package.
fn told_in_order(mut told: Vec<Moved>) -> Result<Vec<Moved>, Fault>
    ensures same { IfOk result (λ sorted. IsPermutation told.items sorted.items) }
    ensures order { IfOk result (λ sorted. IsArranged moved_key sorted.items) }
{
    told.sort_unstable_by_key(|moved| (moved.kind.number(), moved.base));
    if told.is_sorted_by(|moved, next| moved_is_before(moved, next)) {
        Ok(told)
    } else {
        Err(Fault::StoreFault)
    }
}

/// Links as receipts tell them.
fn links_told(links: &[Relation], alloc: Global) -> Result<Vec<Moved>, AllocError>
    ensures { IfOk result (λ told. told.items ≡ map link_moved links.now) }
{
    links.iter().map(|link| Moved::of_link(link)).collect(alloc)
}

/// All items of the package, by kind and identity, and all its links, by mapping, base and other
/// end, both as receipts tell them. The identity rows are read once for both, and each content by
/// its number.
pub fn tell_all<S: Alter>(
    conn: &mut Connection<S>,
    alloc: Global,
) -> Result<(Vec<Moved>, Vec<Moved>), Fault>
    requires { Rests (state S.Store conn.old) }
    ensures { Looks (Sees (λ f p told. (told.0.items ≡ map item_moved p.items)
        × (told.1.items ≡ map link_moved p.links))) (state S.Store conn.old) (state S.Store conn.new) result }
{
    let rows = all_identities(conn, alloc)?;
    let items = told_of(conn, &rows, alloc)?;
    let links = links_by(conn, &rows, alloc)?;
    let items = told_in_order(items)?;
    let links = links_told(&links, alloc)?;
    Ok((items, links))
}
