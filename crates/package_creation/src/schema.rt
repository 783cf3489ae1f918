//! The tables and indexes of a new package.
//!
//! `create_schema` is one step of a transaction. It tells the whole schema, so that each statement
//! of this crate may be run on it.
//! An edit of a text needs its facts anew: `tools/schema_facts.py` writes proofs/Texts, and the check decides.

ghost use Rattle.std.specs.Prelude.{◌≡◌, ◌<◌, true, false, length, map, Err, IfErr, OnOk};
ghost use Rattle.sqlite.specs.State.{HasCleanDisk, KeepsCommit, Survives};
ghost use Rattle.sqlite.specs.Held.{state};
ghost use Rattle.store_sql.specs.Writing.{WritesInside};
ghost use Rattle.store_sql.specs.Blank.{IsBlank, no_schema};
ghost use Rattle.package_tables.specs.SchemaMaking.{Made, MadeBy, ChangedInside, FailsToMake, FailsToMakeBy};
ghost use Rattle.package_tables.specs.SchemaMaking.{FailsInside};
ghost use Rattle.package_tables.specs.SchemaMade.{BecomesPackage};

use sqlite::{Alter, Error, ErrorCode, Transaction};

// The statements stand in an order in which each reference names a table that is there.
const SPATIAL_REFERENCE_SYSTEMS: &str =
    "CREATE TABLE gpkg_spatial_ref_sys (srs_name TEXT NOT NULL, srs_id INTEGER PRIMARY KEY, organization TEXT NOT NULL, organization_coordsys_id INTEGER NOT NULL, definition TEXT NOT NULL, description TEXT) STRICT";

const CONTENTS: &str =
    "CREATE TABLE gpkg_contents (table_name TEXT PRIMARY KEY, data_type TEXT NOT NULL, identifier TEXT UNIQUE, description TEXT, last_change TEXT NOT NULL, min_x INTEGER, min_y INTEGER, max_x INTEGER, max_y INTEGER, srs_id INTEGER REFERENCES gpkg_spatial_ref_sys (srs_id)) STRICT";

const TILE_MATRIX_SETS: &str =
    "CREATE TABLE gpkg_tile_matrix_set (table_name TEXT PRIMARY KEY REFERENCES gpkg_contents (table_name), srs_id INTEGER NOT NULL REFERENCES gpkg_spatial_ref_sys (srs_id), min_x INTEGER NOT NULL, min_y INTEGER NOT NULL, max_x INTEGER NOT NULL, max_y INTEGER NOT NULL) STRICT";

const TILE_MATRICES: &str =
    "CREATE TABLE gpkg_tile_matrix (table_name TEXT REFERENCES gpkg_contents (table_name), zoom_level INTEGER NOT NULL, matrix_width INTEGER NOT NULL, matrix_height INTEGER NOT NULL, tile_width INTEGER NOT NULL, tile_height INTEGER NOT NULL, pixel_x_size INTEGER NOT NULL, pixel_y_size INTEGER NOT NULL, PRIMARY KEY (table_name, zoom_level)) STRICT";

const RELATIONS: &str =
    "CREATE TABLE gpkgext_relations (id INTEGER PRIMARY KEY, base_table_name TEXT NOT NULL, base_primary_column TEXT NOT NULL, related_table_name TEXT NOT NULL, related_primary_column TEXT NOT NULL, relation_name TEXT NOT NULL, mapping_table_name TEXT NOT NULL UNIQUE) STRICT";

const TILES: &str =
    "CREATE TABLE sheet_tiles (id INTEGER PRIMARY KEY AUTOINCREMENT, zoom_level INTEGER NOT NULL, tile_column INTEGER NOT NULL, tile_row INTEGER NOT NULL, tile_data BLOB NOT NULL, UNIQUE (zoom_level, tile_column, tile_row)) STRICT";

const MEDIA: &str =
    "CREATE TABLE sheet_media (id INTEGER PRIMARY KEY AUTOINCREMENT, data BLOB NOT NULL, content_type TEXT NOT NULL) STRICT";

const ROWS: &str =
    "CREATE TABLE sheet_rows (id INTEGER PRIMARY KEY AUTOINCREMENT, x INTEGER NOT NULL, y INTEGER NOT NULL, code INTEGER NOT NULL, label TEXT NOT NULL) STRICT";

const TILES_MEDIA: &str =
    "CREATE TABLE tiles_media (base_id INTEGER NOT NULL, related_id INTEGER NOT NULL, UNIQUE (base_id, related_id)) STRICT";

const ROWS_MEDIA: &str =
    "CREATE TABLE rows_media (base_id INTEGER NOT NULL, related_id INTEGER NOT NULL, UNIQUE (base_id, related_id)) STRICT";

const ROWS_TILES: &str =
    "CREATE TABLE rows_tiles (base_id INTEGER NOT NULL, related_id INTEGER NOT NULL, UNIQUE (base_id, related_id)) STRICT";

const HEAD: &str =
    "CREATE TABLE sheet_package (id INTEGER PRIMARY KEY, version INTEGER NOT NULL, package TEXT NOT NULL, parent TEXT NOT NULL, depth INTEGER NOT NULL, loan INTEGER NOT NULL, created TEXT NOT NULL) STRICT";

const IDENTITIES: &str =
    "CREATE TABLE sheet_identity (kind INTEGER NOT NULL, local_id INTEGER NOT NULL, uuid TEXT NOT NULL UNIQUE, PRIMARY KEY (kind, local_id)) STRICT";

const RECEIPTS: &str =
    "CREATE TABLE sheet_receipts (seq INTEGER PRIMARY KEY, request TEXT NOT NULL UNIQUE, at TEXT NOT NULL, line TEXT NOT NULL, source TEXT NOT NULL, target TEXT NOT NULL, n_tiles INTEGER NOT NULL, n_media INTEGER NOT NULL, n_rows INTEGER NOT NULL, n_links INTEGER NOT NULL, n_bytes INTEGER NOT NULL) STRICT";

const RECEIPT_ITEMS: &str =
    "CREATE TABLE sheet_items (seq INTEGER NOT NULL, position INTEGER NOT NULL, kind INTEGER NOT NULL, base TEXT NOT NULL, other TEXT NOT NULL, size INTEGER NOT NULL, fingerprint TEXT NOT NULL, PRIMARY KEY (seq, position)) STRICT";

const ITEMS_BY_BASE: &str = "CREATE INDEX items_by_base ON sheet_items (base)";

const RECEIPTS_BY_TARGET: &str = "CREATE INDEX receipts_by_target ON sheet_receipts (target)";

const TILES_MEDIA_BY_MEDIUM: &str = "CREATE INDEX by_tiles_media ON tiles_media (related_id)";

const ROWS_MEDIA_BY_MEDIUM: &str = "CREATE INDEX by_rows_media ON rows_media (related_id)";

const ROWS_TILES_BY_TILE: &str = "CREATE INDEX by_rows_tiles ON rows_tiles (related_id)";

const ROWS_BY_PLACE: &str = "CREATE INDEX by_xy ON sheet_rows (x, y)";

const STATEMENTS: [&str; 21] = [
    SPATIAL_REFERENCE_SYSTEMS,
    CONTENTS,
    TILE_MATRIX_SETS,
    TILE_MATRICES,
    RELATIONS,
    TILES,
    MEDIA,
    ROWS,
    TILES_MEDIA,
    ROWS_MEDIA,
    ROWS_TILES,
    HEAD,
    IDENTITIES,
    RECEIPTS,
    RECEIPT_ITEMS,
    ITEMS_BY_BASE,
    RECEIPTS_BY_TARGET,
    TILES_MEDIA_BY_MEDIUM,
    ROWS_MEDIA_BY_MEDIUM,
    ROWS_TILES_BY_TILE,
    ROWS_BY_PLACE,
];

/// Makes the table or the index that the text defines.
fn make<S: Alter>(tx: &mut Transaction<'_, S>, sql: &str) -> Result<(), Error>
    ensures same_reference { tx.new.conn.ghost_name ≡ tx.old.conn.ghost_name }
    ensures made { HasCleanDisk (state S.Store tx.new.conn.now) → tx.old.conn.now.in_transaction ≡ true
        → WritesInside (Made sql.now) (state S.Store tx.old.conn.now) (state S.Store tx.new.conn.now) result }
    ensures failed { HasCleanDisk (state S.Store tx.new.conn.now) → tx.old.conn.now.in_transaction ≡ true
        → IfErr result (FailsToMake sql.now (state S.Store tx.old.conn.now) (state S.Store tx.new.conn.now)) }
    ensures ended { tx.old.conn.now.in_transaction ≡ false →
        (result ≡ Err (Error.SqliteFailure ErrorCode.TransactionState)) × (tx.new.conn.now ≡ tx.old.conn.now) }
    ensures kept { HasCleanDisk (state S.Store tx.new.conn.now)
        → KeepsCommit (state S.Store tx.old.conn.now) (state S.Store tx.new.conn.now) }
    ensures survives { Survives (state S.Store tx.old.conn.now) (state S.Store tx.new.conn.now) (λ _. ⊥) }
{
    tx.execute(sql, &[])?;
    Ok(())
}

/// Makes what each of the texts defines, in order, up to the first that fails.
fn make_each<S: Alter>(tx: &mut Transaction<'_, S>, texts: &[&str]) -> Result<(), Error>
    ensures same_reference { tx.new.conn.ghost_name ≡ tx.old.conn.ghost_name }
    ensures made { 0 < length texts.now → HasCleanDisk (state S.Store tx.new.conn.now)
        → tx.old.conn.now.in_transaction ≡ true → OnOk result
        (ChangedInside (MadeBy (map (λ text. text.now) texts.now)) (state S.Store tx.old.conn.now)
        (state S.Store tx.new.conn.now)) }
    ensures failed { HasCleanDisk (state S.Store tx.new.conn.now) → tx.old.conn.now.in_transaction ≡ true
        → IfErr result (FailsToMakeBy (map (λ text. text.now) texts.now) (state S.Store tx.old.conn.now)
        (state S.Store tx.new.conn.now)) }
    ensures ended { 0 < length texts.now → tx.old.conn.now.in_transaction ≡ false
        → (result ≡ Err (Error.SqliteFailure ErrorCode.TransactionState)) × (tx.new.conn.now ≡ tx.old.conn.now) }
    ensures kept { HasCleanDisk (state S.Store tx.new.conn.now)
        → KeepsCommit (state S.Store tx.old.conn.now) (state S.Store tx.new.conn.now) }
    ensures survives { Survives (state S.Store tx.old.conn.now) (state S.Store tx.new.conn.now) (λ _. ⊥) }
{
    for text in texts {
        make(tx, text)?;
    }
    Ok(())
}

/// Makes the tables and the look-up indexes of a package in a database that has no object yet.
///
/// The names of the tables are those of OGC GeoPackage 1.3 (spatial reference systems, contents,
/// tile matrix sets, tile matrices)
/// and OGC 18-000 (relations); their columns' types and keys, and the tables whose names begin with
/// `sheet_`, are profile.
///
/// # Errors
///
/// In a database without objects no statement is refused: one fails for want of memory, where the
/// disk fails, or where the connection was shut before. The transaction is rolled back then. Where
/// it had ended before the call, the error is `TransactionState`.
pub fn create_schema<S: Alter>(tx: &mut Transaction<'_, S>) -> Result<(), Error>
    ensures same_reference { tx.new.conn.ghost_name ≡ tx.old.conn.ghost_name }
    ensures made { HasCleanDisk (state S.Store tx.new.conn.now) → tx.old.conn.now.in_transaction ≡ true
        → OnOk result (ChangedInside BecomesPackage (state S.Store tx.old.conn.now) (state S.Store tx.new.conn.now)) }
    ensures failed { HasCleanDisk (state S.Store tx.new.conn.now) → tx.old.conn.now.in_transaction ≡ true
        → IsBlank no_schema (state S.Store tx.old.conn.now).now
        → IfErr result (FailsInside (state S.Store tx.old.conn.now) (state S.Store tx.new.conn.now)) }
    ensures ended { tx.old.conn.now.in_transaction ≡ false →
        (result ≡ Err (Error.SqliteFailure ErrorCode.TransactionState)) × (tx.new.conn.now ≡ tx.old.conn.now) }
    ensures kept { HasCleanDisk (state S.Store tx.new.conn.now)
        → KeepsCommit (state S.Store tx.old.conn.now) (state S.Store tx.new.conn.now) }
    ensures survives { Survives (state S.Store tx.old.conn.now) (state S.Store tx.new.conn.now) (λ _. ⊥) }
{
    make_each(tx, &STATEMENTS)
}
