//! The rows of a store of the first version beside its fixed rows and its head. Each look asks for
//! the form of its own table alone.
ghost use Rattle.std.specs.Prelude.{pos, IsPermutation};
ghost use Rattle.std.specs.Ordering.{on, then_cmp, int_cmp};
ghost use Rattle.sqlite.specs.Held.{state};
ghost use Rattle.store_sql.specs.Transactions.{Rests, Looks};
ghost use Rattle.package_tables.specs.Calls.{AreAll};
ghost use Rattle.package_tables.specs.Damaged.{AreFormedAt};
ghost use Rattle.package_tables.specs.Package.{tables_of};
ghost use Rattle.package_tables.specs.Shape.{rows_of, IsFormed};
ghost use Rattle.package_tables.specs.Shapes.{attribute_shape, identity_shape, medium_shape, rows_media_shape};
ghost use Rattle.package_tables.specs.Shapes.{tile_shape, tiles_media_shape};
ghost use Rattle.package_schema.specs.Looking.{Sees};
ghost use Rattle.opening_v1.specs.Copies.{AreRowsOf};

use package_copy::package_rows::PackageRows;
use package_schema::rows_alone::{moved_rows, receipt_rows};
use package_tables::fault::Fault;
use package_tables::from_row::all_of;
use package_tables::rows::{AttributeRow, IdentityRow, MappingRow, MediaRow, MovedRow, TileRow};
use sqlite::{Alter, Connection};
use std::alloc::Global;

fn tile_rows<S: Alter>(conn: &mut Connection<S>, alloc: Global) -> Result<Vec<TileRow>, Fault>
    requires { Rests (state S.Store conn.old) }
    ensures { Looks (Sees (λ db found. IsFormed tile_shape db
        → AreAll (on (λ x. x.id) int_cmp) (rows_of tile_shape db) found.items)) (state S.Store conn.old)
        (state S.Store conn.new) result }
{
    all_of(
        alloc,
        conn.query_all("SELECT * FROM sheet_tiles ORDER BY id", &[]),
    )
}

fn medium_rows<S: Alter>(conn: &mut Connection<S>, alloc: Global) -> Result<Vec<MediaRow>, Fault>
    requires { Rests (state S.Store conn.old) }
    ensures { Looks (Sees (λ db found. IsFormed medium_shape db
        → AreAll (on (λ x. x.id) int_cmp) (rows_of medium_shape db) found.items)) (state S.Store conn.old)
        (state S.Store conn.new) result }
{
    all_of(
        alloc,
        conn.query_all("SELECT * FROM sheet_media ORDER BY id", &[]),
    )
}

fn attribute_rows<S: Alter>(
    conn: &mut Connection<S>,
    alloc: Global,
) -> Result<Vec<AttributeRow>, Fault>
    requires { Rests (state S.Store conn.old) }
    ensures { Looks (Sees (λ db found. IsFormed attribute_shape db
        → AreAll (on (λ x. x.id) int_cmp) (rows_of attribute_shape db) found.items)) (state S.Store conn.old)
        (state S.Store conn.new) result }
{
    all_of(
        alloc,
        conn.query_all("SELECT * FROM sheet_rows ORDER BY id", &[]),
    )
}

fn tiles_media_rows<S: Alter>(
    conn: &mut Connection<S>,
    alloc: Global,
) -> Result<Vec<MappingRow>, Fault>
    requires { Rests (state S.Store conn.old) }
    ensures { Looks (Sees (λ db found. IsFormed tiles_media_shape db
        → AreAll (then_cmp (on (λ x. x.base_id) int_cmp) (on (λ x. x.related_id) int_cmp))
        (rows_of tiles_media_shape db) found.items)) (state S.Store conn.old) (state S.Store conn.new) result }
{
    all_of(
        alloc,
        conn.query_all(
            "SELECT * FROM tiles_media ORDER BY base_id, related_id",
            &[],
        ),
    )
}

fn rows_media_rows<S: Alter>(
    conn: &mut Connection<S>,
    alloc: Global,
) -> Result<Vec<MappingRow>, Fault>
    requires { Rests (state S.Store conn.old) }
    ensures { Looks (Sees (λ db found. IsFormed rows_media_shape db
        → AreAll (then_cmp (on (λ x. x.base_id) int_cmp) (on (λ x. x.related_id) int_cmp))
        (rows_of rows_media_shape db) found.items)) (state S.Store conn.old) (state S.Store conn.new) result }
{
    all_of(
        alloc,
        conn.query_all("SELECT * FROM rows_media ORDER BY base_id, related_id", &[]),
    )
}

fn identity_rows<S: Alter>(
    conn: &mut Connection<S>,
    alloc: Global,
) -> Result<Vec<IdentityRow>, Fault>
    requires { Rests (state S.Store conn.old) }
    ensures { Looks (Sees (λ db found. IsFormed identity_shape db
        → AreAll (then_cmp (on (λ x. x.kind) int_cmp) (on (λ x. x.local_id) int_cmp)) (rows_of identity_shape db)
        found.items)) (state S.Store conn.old) (state S.Store conn.new) result }
{
    all_of(
        alloc,
        conn.query_all("SELECT * FROM sheet_identity ORDER BY kind, local_id", &[]),
    )
}

/// The rows of what was moved, by the receipts' numbers and by their places.
fn in_turn(mut moved: Vec<MovedRow>) -> Vec<MovedRow>
    ensures { IsPermutation moved.items result.items }
{
    moved.sort_unstable_by_key(|row| (row.seq, row.position));
    moved
}

/// All these rows of a store whose fourteen tables have their form.
///
/// # Errors
///
/// `OutOfMemory` where a growth was refused, and `StoreFault` where the store failed or a text is no UTF-8.
pub(crate) fn read_rows<S: Alter>(
    conn: &mut Connection<S>,
    alloc: Global,
) -> Result<PackageRows, Fault>
    requires { Rests (state S.Store conn.old) }
    ensures { Looks (Sees (λ db found. AreFormedAt (pos 1) db → AreRowsOf (tables_of db) found))
        (state S.Store conn.old) (state S.Store conn.new) result }
{
    let tiles = tile_rows(conn, alloc)?;
    let media = medium_rows(conn, alloc)?;
    let rows = attribute_rows(conn, alloc)?;
    let tiles_media = tiles_media_rows(conn, alloc)?;
    let rows_media = rows_media_rows(conn, alloc)?;
    let identities = identity_rows(conn, alloc)?;
    let receipts = receipt_rows(conn, alloc)?;
    let moved = moved_rows(conn, alloc)?;
    Ok(PackageRows {
        tiles,
        media,
        rows,
        tiles_media,
        rows_media,
        identities,
        receipts,
        moved: in_turn(moved),
    })
}
