//! What a whole package holds, its contents read one after the other, so that beside the items no
//! more than one content is in memory. `whole::holdings` reads each table by one statement: that is
//! faster where contents are small, and for a while it holds all of them twice.
//! An error is want of memory, a store that failed, or rows that no package has; the store holds what it held.
ghost use Rattle.std.specs.Prelude.{◌≡◌, IfOk, IsTrue};
ghost use Rattle.std.specs.List.{AllZip};
ghost use Rattle.sqlite.specs.State.{HasCleanDisk};
ghost use Rattle.sqlite.specs.Held.{state};
ghost use Rattle.store_sql.specs.Staying.{Stays};
ghost use Rattle.store_sql.specs.Transactions.{Rests, Looks};
ghost use Rattle.package_tables.specs.Calls.{Answers, LooksUp};
ghost use Rattle.identity_register.specs.Calls.{Sees};
ghost use Rattle.identity_register.specs.Gathered.{IsReadOf};

use crate::look_ups::content_of;
use crate::stored_texts::stored_uuid;
use crate::whole::{holdings, items_in_order, links_by};
use package_tables::fault::Fault;
use package_tables::identities::all_identities;
use package_tables::rows::IdentityRow;
use sheet_types::command::{Item, Relation};
use sqlite::{Alter, Connection};
use std::alloc::Global;

/// A package of more bytes is read so: 16 MiB.
pub const AT_ONCE: u64 = 16_777_216;

/// The item of an identity row.
fn item_of<S: Alter>(conn: &mut Connection<S>, row: &IdentityRow) -> Result<Item, Fault>
    requires { Rests (state S.Store conn.old) }
    ensures { LooksUp (λ t item. IsReadOf t row.now item) (state S.Store conn.old) (state S.Store conn.new) result }
{
    let identity = stored_uuid(row.uuid.as_str())?;
    let content = content_of(conn, row.kind, row.local_id)?;
    Ok(Item { identity, content })
}

/// The items of identity rows, each after the other.
fn items_of<S: Alter>(
    conn: &mut Connection<S>,
    rows: &[IdentityRow],
    alloc: Global,
) -> Result<Vec<Item>, Fault>
    requires { Rests (state S.Store conn.old) }
    ensures stays { Stays (state S.Store conn.old) (state S.Store conn.new) }
    ensures read { HasCleanDisk (state S.Store conn.new) → IsTrue (state S.Store conn.old).is_open
        → IfOk result (λ items. IsTrue (state S.Store conn.new).is_open
        × Answers (λ t items. AllZip (IsReadOf t) rows.now items.items) items (state S.Store conn.old).now
        (state S.Store conn.new).now) }
{
    let mut items = Vec::new(alloc);
    for row in rows {
        items.push(item_of(conn, row)?)?;
    }
    Ok(items)
}

/// All items of the package, by kind and identity, and all its links, by mapping, base and other
/// end. The identity rows are read once for both, and each content by its number.
fn holdings_each<S: Alter>(
    conn: &mut Connection<S>,
    alloc: Global,
) -> Result<(Vec<Item>, Vec<Relation>), Fault>
    requires { Rests (state S.Store conn.old) }
    ensures { Looks (Sees (λ f p held. (held.0.items ≡ p.items) × (held.1.items ≡ p.links)))
        (state S.Store conn.old)
        (state S.Store conn.new) result }
{
    let rows = all_identities(conn, alloc)?;
    let items = items_of(conn, &rows, alloc)?;
    let links = links_by(conn, &rows, alloc)?;
    let items = items_in_order(items)?;
    Ok((items, links))
}

/// All items and all links of the package, both in their order. One of more than `AT_ONCE` bytes is
/// read a content at a time.
pub fn holdings_by_size<S: Alter>(
    conn: &mut Connection<S>,
    alloc: Global,
    bytes: u64,
) -> Result<(Vec<Item>, Vec<Relation>), Fault>
    requires { Rests (state S.Store conn.old) }
    ensures { Looks (Sees (λ f p held. (held.0.items ≡ p.items) × (held.1.items ≡ p.links)))
        (state S.Store conn.old)
        (state S.Store conn.new) result }
{
    if bytes > AT_ONCE {
        holdings_each(conn, alloc)
    } else {
        holdings(conn, alloc)
    }
}
