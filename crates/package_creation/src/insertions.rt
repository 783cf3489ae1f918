//! The statements that enter a row of the tables that are the same in every package but for the
//! frame: reference systems, contents, tile matrices and relations.
ghost use Rattle.std.specs.Prelude.{◌≡◌};
ghost use Rattle.sqlite.specs.State.{Survives};
ghost use Rattle.sqlite.specs.Held.{state};
ghost use Rattle.package_tables.specs.Calls.{Makes};
ghost use Rattle.package_tables.specs.Listed.{contents, matrices, matrix_sets, relations, systems};
ghost use Rattle.package_tables.specs.Changes.{Adds};

use package_tables::fault::{Fault, drop_count};
use sqlite::{Alter, Transaction, params};

/// Enters a reference system, under a number that is free.
pub(crate) fn insert_spatial_ref_sys<S: Alter>(
    tx: &mut Transaction<'_, S>,
    srs_name: &str,
    srs_id: i64,
    organization: &str,
    organization_coordsys_id: i64,
    definition: &str,
    description: &str,
) -> Result<(), Fault>
    ensures same_reference { tx.new.conn.ghost_name ≡ tx.old.conn.ghost_name }
    ensures wrote { Makes (Adds systems (record {
      srs_name = srs_name.now;
      srs_id = srs_id;
      organization = organization.now;
      organization_coordsys_id = organization_coordsys_id;
      definition = definition.now;
      description = description.now;
    })) (state S.Store tx.old.conn.now)
        (state S.Store tx.new.conn.now) result }
    ensures survives { Survives (state S.Store tx.old.conn.now) (state S.Store tx.new.conn.now) (λ _. ⊥) }
{
    drop_count(tx.execute(
        "INSERT INTO gpkg_spatial_ref_sys VALUES (?1, ?2, ?3, ?4, ?5, ?6)",
        params![
            srs_name,
            srs_id,
            organization,
            organization_coordsys_id,
            definition,
            description
        ],
    ))
}

/// Enters a table into the contents, under a name and an identifier that are free.
pub(crate) fn insert_contents<S: Alter>(
    tx: &mut Transaction<'_, S>,
    table_name: &str,
    data_type: &str,
    identifier: &str,
    description: &str,
    last_change: &str,
    min_x: i64,
    min_y: i64,
    max_x: i64,
    max_y: i64,
    srs_id: i64,
) -> Result<(), Fault>
    ensures same_reference { tx.new.conn.ghost_name ≡ tx.old.conn.ghost_name }
    ensures wrote { Makes (Adds contents (record {
      table_name = table_name.now;
      data_type = data_type.now;
      identifier = identifier.now;
      description = description.now;
      last_change = last_change.now;
      min_x = min_x;
      min_y = min_y;
      max_x = max_x;
      max_y = max_y;
      srs_id = srs_id;
    }))
        (state S.Store tx.old.conn.now) (state S.Store tx.new.conn.now) result }
    ensures survives { Survives (state S.Store tx.old.conn.now) (state S.Store tx.new.conn.now) (λ _. ⊥) }
{
    drop_count(tx.execute(
        "INSERT INTO gpkg_contents VALUES (?1, ?2, ?3, ?4, ?5, ?6, ?7, ?8, ?9, ?10)",
        params![
            table_name,
            data_type,
            identifier,
            description,
            last_change,
            min_x,
            min_y,
            max_x,
            max_y,
            srs_id
        ],
    ))
}

/// Enters the tile matrix set of a table that has none.
pub(crate) fn insert_tile_matrix_set<S: Alter>(
    tx: &mut Transaction<'_, S>,
    table_name: &str,
    srs_id: i64,
    min_x: i64,
    min_y: i64,
    max_x: i64,
    max_y: i64,
) -> Result<(), Fault>
    ensures same_reference { tx.new.conn.ghost_name ≡ tx.old.conn.ghost_name }
    ensures wrote { Makes (Adds matrix_sets (record {
      table_name = table_name.now;
      srs_id = srs_id;
      min_x = min_x;
      min_y = min_y;
      max_x = max_x;
      max_y = max_y;
    })) (state S.Store tx.old.conn.now)
        (state S.Store tx.new.conn.now) result }
    ensures survives { Survives (state S.Store tx.old.conn.now) (state S.Store tx.new.conn.now) (λ _. ⊥) }
{
    drop_count(tx.execute(
        "INSERT INTO gpkg_tile_matrix_set VALUES (?1, ?2, ?3, ?4, ?5, ?6)",
        params![table_name, srs_id, min_x, min_y, max_x, max_y],
    ))
}

/// Enters a zoom level of a table that has no such level.
pub(crate) fn insert_tile_matrix<S: Alter>(
    tx: &mut Transaction<'_, S>,
    table_name: &str,
    zoom_level: i64,
    matrix_width: i64,
    matrix_height: i64,
    tile_width: i64,
    tile_height: i64,
    pixel_x_size: i64,
    pixel_y_size: i64,
) -> Result<(), Fault>
    ensures same_reference { tx.new.conn.ghost_name ≡ tx.old.conn.ghost_name }
    ensures wrote { Makes (Adds matrices (record {
      table_name = table_name.now;
      zoom_level = zoom_level;
      matrix_width = matrix_width;
      matrix_height = matrix_height;
      tile_width = tile_width;
      tile_height = tile_height;
      pixel_x_size = pixel_x_size;
      pixel_y_size = pixel_y_size;
    })) (state S.Store tx.old.conn.now)
        (state S.Store tx.new.conn.now) result }
    ensures survives { Survives (state S.Store tx.old.conn.now) (state S.Store tx.new.conn.now) (λ _. ⊥) }
{
    drop_count(tx.execute(
        "INSERT INTO gpkg_tile_matrix VALUES (?1, ?2, ?3, ?4, ?5, ?6, ?7, ?8)",
        params![
            table_name,
            zoom_level,
            matrix_width,
            matrix_height,
            tile_width,
            tile_height,
            pixel_x_size,
            pixel_y_size
        ],
    ))
}

/// Enters a relation, under a number and a mapping table that are free.
pub(crate) fn insert_relation<S: Alter>(
    tx: &mut Transaction<'_, S>,
    id: i64,
    base_table_name: &str,
    base_primary_column: &str,
    related_table_name: &str,
    related_primary_column: &str,
    relation_name: &str,
    mapping_table_name: &str,
) -> Result<(), Fault>
    ensures same_reference { tx.new.conn.ghost_name ≡ tx.old.conn.ghost_name }
    ensures wrote { Makes (Adds relations (record {
      id = id;
      base_table_name = base_table_name.now;
      base_primary_column = base_primary_column.now;
      related_table_name = related_table_name.now;
      related_primary_column = related_primary_column.now;
      relation_name = relation_name.now;
      mapping_table_name = mapping_table_name.now;
    })) (state S.Store tx.old.conn.now)
        (state S.Store tx.new.conn.now) result }
    ensures survives { Survives (state S.Store tx.old.conn.now) (state S.Store tx.new.conn.now) (λ _. ⊥) }
{
    drop_count(tx.execute(
        "INSERT INTO gpkgext_relations VALUES (?1, ?2, ?3, ?4, ?5, ?6, ?7)",
        params![
            id,
            base_table_name,
            base_primary_column,
            related_table_name,
            related_primary_column,
            relation_name,
            mapping_table_name
        ],
    ))
}
