//! The rows that each package has from its start: reference systems, contents, tile matrices and relations.
ghost use Rattle.std.specs.Prelude.{◌≡◌, [], ◌∷◌, IsTrue, IsOk};
ghost use Rattle.sqlite.specs.Held.{state};
ghost use Rattle.sheet_types.specs.Matrix.{is_good_frame};
ghost use Rattle.store_sql.specs.Transactions.{Steps};
ghost use Rattle.package_tables.specs.Calls.{OnTables};
ghost use Rattle.package_tables.specs.Listed.{contents, matrix_sets, relations, systems};
ghost use Rattle.package_tables.specs.Changes.{Adds, ListBecomes};
ghost use Rattle.package_tables.specs.Fixed.{is_standard, standard_systems, systems_of, content, contents_of};
ghost use Rattle.package_tables.specs.Fixed.{matrix_set, mapping_relations, relation};
ghost use Rattle.package_tables.specs.Creation.{TablesBecome, no_rows, fixed_tables};

use crate::insertions::{
    insert_contents, insert_relation, insert_spatial_ref_sys, insert_tile_matrix_set,
};
use crate::levels::insert_levels;
use package_tables::fault::Fault;
use sheet_types::frame::Frame;
use sqlite::{Alter, Transaction};
use std::alloc::Global;

/// The reference systems that OGC GeoPackage 1.3 wants in each package.
fn insert_standard_systems<S: Alter>(tx: &mut Transaction<'_, S>) -> Result<(), Fault>
    ensures same_reference { tx.new.conn.ghost_name ≡ tx.old.conn.ghost_name }
    ensures steps { Steps (λ _. OnTables (ListBecomes systems [] standard_systems)) (state S.Store tx.old.conn.now)
        (state S.Store tx.new.conn.now) result }
{
    insert_spatial_ref_sys(tx, "undefined cartesian", -1, "NONE", -1, "undefined", "")?;
    insert_spatial_ref_sys(tx, "undefined geographic", 0, "NONE", 0, "undefined", "")?;
    insert_spatial_ref_sys(tx, "WGS 84", 4326, "EPSG", 4326, "profile", "")
}

fn is_standard(srs_id: i64) -> bool
    ensures { result ≡ is_standard srs_id }
{
    srs_id == -1 || srs_id == 0 || srs_id == 4326
}

/// The reference system of a frame, where it is none of those.
fn insert_own_system<S: Alter>(
    alloc: Global,
    tx: &mut Transaction<'_, S>,
    srs_id: i64,
) -> Result<(), Fault>
    ensures same_reference { tx.new.conn.ghost_name ≡ tx.old.conn.ghost_name }
    ensures steps { Steps (λ _. OnTables (ListBecomes systems standard_systems (systems_of srs_id)))
        (state S.Store tx.old.conn.now) (state S.Store tx.new.conn.now) result }
    ensures standard { IsTrue (is_standard srs_id) → IsOk result }
{
    if is_standard(srs_id) {
        return Ok(());
    }
    let name = format!(in alloc; "srs {srs_id}")?;
    insert_spatial_ref_sys(tx, name.as_str(), srs_id, "EPSG", srs_id, "profile", "")
}

fn insert_systems<S: Alter>(
    alloc: Global,
    tx: &mut Transaction<'_, S>,
    srs_id: i64,
) -> Result<(), Fault>
    ensures same_reference { tx.new.conn.ghost_name ≡ tx.old.conn.ghost_name }
    ensures steps { Steps (λ _. OnTables (ListBecomes systems [] (systems_of srs_id))) (state S.Store tx.old.conn.now)
        (state S.Store tx.new.conn.now) result }
{
    insert_standard_systems(tx)?;
    insert_own_system(alloc, tx, srs_id)
}

/// A table of the contents. Its identifier is its name, its bounds are the frame's (profile).
fn insert_content<S: Alter>(
    tx: &mut Transaction<'_, S>,
    table_name: &str,
    data_type: &str,
    frame: &Frame,
    at: &str,
) -> Result<(), Fault>
    ensures same_reference { tx.new.conn.ghost_name ≡ tx.old.conn.ghost_name }
    ensures steps { Steps (λ _. OnTables (Adds contents (content table_name.now data_type.now frame.now at.now)))
        (state S.Store tx.old.conn.now) (state S.Store tx.new.conn.now) result }
{
    let Frame {
        srs_id,
        min_x,
        min_y,
        max_x,
        max_y,
        ..
    } = *frame;
    insert_contents(
        tx, table_name, data_type, table_name, "", at, min_x, min_y, max_x, max_y, srs_id,
    )
}

fn insert_all_contents<S: Alter>(
    tx: &mut Transaction<'_, S>,
    frame: &Frame,
    at: &str,
) -> Result<(), Fault>
    ensures same_reference { tx.new.conn.ghost_name ≡ tx.old.conn.ghost_name }
    ensures steps { Steps (λ _. OnTables (ListBecomes contents [] (contents_of frame.now at.now)))
        (state S.Store tx.old.conn.now) (state S.Store tx.new.conn.now) result }
{
    insert_content(tx, "sheet_tiles", "tiles", frame, at)?;
    insert_content(tx, "sheet_rows", "attributes", frame, at)?;
    insert_content(tx, "sheet_media", "attributes", frame, at)
}

/// The tile matrix set of the tiles.
fn insert_matrix_set<S: Alter>(tx: &mut Transaction<'_, S>, frame: &Frame) -> Result<(), Fault>
    ensures same_reference { tx.new.conn.ghost_name ≡ tx.old.conn.ghost_name }
    ensures steps { Steps (λ _. OnTables (ListBecomes matrix_sets [] (matrix_set frame.now ∷ [])))
        (state S.Store tx.old.conn.now) (state S.Store tx.new.conn.now) result }
{
    let Frame {
        srs_id,
        min_x,
        min_y,
        max_x,
        max_y,
        ..
    } = *frame;
    insert_tile_matrix_set(tx, "sheet_tiles", srs_id, min_x, min_y, max_x, max_y)
}

/// A mapping table, by the tables of its two ends and the name of what the other end is.
fn insert_mapping<S: Alter>(
    tx: &mut Transaction<'_, S>,
    id: i64,
    base: &str,
    related: &str,
    name: &str,
    mapping: &str,
) -> Result<(), Fault>
    ensures same_reference { tx.new.conn.ghost_name ≡ tx.old.conn.ghost_name }
    ensures steps { Steps (λ _. OnTables (Adds relations (relation id base.now related.now name.now mapping.now)))
        (state S.Store tx.old.conn.now) (state S.Store tx.new.conn.now) result }
{
    insert_relation(tx, id, base, "id", related, "id", name, mapping)
}

/// Which tables each mapping table relates (OGC 18-000, relations).
fn insert_relations<S: Alter>(tx: &mut Transaction<'_, S>) -> Result<(), Fault>
    ensures same_reference { tx.new.conn.ghost_name ≡ tx.old.conn.ghost_name }
    ensures steps { Steps (λ _. OnTables (ListBecomes relations [] mapping_relations)) (state S.Store tx.old.conn.now)
        (state S.Store tx.new.conn.now) result }
{
    insert_mapping(tx, 1, "sheet_tiles", "sheet_media", "media", "tiles_media")?;
    insert_mapping(tx, 2, "sheet_rows", "sheet_media", "media", "rows_media")?;
    insert_mapping(tx, 3, "sheet_rows", "sheet_tiles", "tiles", "rows_tiles")
}

/// All fixed rows of a frame, with the moment of the last change.
pub(crate) fn insert_fixed<S: Alter>(
    alloc: Global,
    tx: &mut Transaction<'_, S>,
    frame: &Frame,
    at: &str,
) -> Result<(), Fault>
    requires { IsTrue (is_good_frame frame.now) }
    ensures same_reference { tx.new.conn.ghost_name ≡ tx.old.conn.ghost_name }
    ensures steps { Steps (λ _. OnTables (TablesBecome no_rows (fixed_tables frame.now at.now)))
        (state S.Store tx.old.conn.now) (state S.Store tx.new.conn.now) result }
{
    insert_systems(alloc, tx, frame.srs_id)?;
    insert_all_contents(tx, frame, at)?;
    insert_matrix_set(tx, frame)?;
    insert_levels(tx, frame)?;
    insert_relations(tx)
}
