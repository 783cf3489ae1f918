//! The tables of an export, with the columns that the standards give them.
ghost use Rattle.std.specs.Prelude.{◌≡◌, IfOk, string_bytes};
ghost use Rattle.view_export.specs.Schema.{contents_table, export_table, extensions_table, geometry_columns_table};
ghost use Rattle.view_export.specs.Schema.{mapping_table, matrix_set_table, matrix_table, media_table};
ghost use Rattle.view_export.specs.Schema.{reference_systems_table, relations_table, rows_table, schema, sheet_tables};
ghost use Rattle.view_export.specs.Schema.{standard_tables, styles_table, tile_identity_table, tiles_table};

use std::alloc::{AllocError, Global};

/// Spatial reference systems (OGC GeoPackage 1.3, 1.1.2).
fn reference_systems_table() -> &'static str
    ensures { result.now ≡ reference_systems_table }
{
    "CREATE TABLE gpkg_spatial_ref_sys (srs_name TEXT NOT NULL,srs_id INTEGER NOT NULL PRIMARY KEY,organization TEXT NOT NULL,organization_coordsys_id INTEGER NOT NULL,definition TEXT NOT NULL,description TEXT);\n"
}

/// Contents (1.1.3).
fn contents_table() -> &'static str
    ensures { result.now ≡ contents_table }
{
    "CREATE TABLE gpkg_contents (table_name TEXT NOT NULL PRIMARY KEY,data_type TEXT NOT NULL,identifier TEXT UNIQUE,description TEXT DEFAULT '',last_change DATETIME NOT NULL DEFAULT (strftime('%Y-%m-%dT%H:%M:%fZ','now')),min_x DOUBLE,min_y DOUBLE,max_x DOUBLE,max_y DOUBLE,srs_id INTEGER,CONSTRAINT fk_gc_r_srs_id FOREIGN KEY (srs_id) REFERENCES gpkg_spatial_ref_sys(srs_id));\n"
}

/// Geometry columns (2.1.5).
fn geometry_columns_table() -> &'static str
    ensures { result.now ≡ geometry_columns_table }
{
    "CREATE TABLE gpkg_geometry_columns (table_name TEXT NOT NULL,column_name TEXT NOT NULL,geometry_type_name TEXT NOT NULL,srs_id INTEGER NOT NULL,z TINYINT NOT NULL,m TINYINT NOT NULL,CONSTRAINT pk_geom_cols PRIMARY KEY (table_name, column_name),CONSTRAINT uk_gc_table_name UNIQUE (table_name),CONSTRAINT fk_gc_tn FOREIGN KEY (table_name) REFERENCES gpkg_contents(table_name),CONSTRAINT fk_gc_srs FOREIGN KEY (srs_id) REFERENCES gpkg_spatial_ref_sys(srs_id));\n"
}

/// Tile matrix sets (2.2.6).
fn matrix_set_table() -> &'static str
    ensures { result.now ≡ matrix_set_table }
{
    "CREATE TABLE gpkg_tile_matrix_set (table_name TEXT NOT NULL PRIMARY KEY,srs_id INTEGER NOT NULL,min_x DOUBLE NOT NULL,min_y DOUBLE NOT NULL,max_x DOUBLE NOT NULL,max_y DOUBLE NOT NULL,CONSTRAINT fk_gtms_table_name FOREIGN KEY (table_name) REFERENCES gpkg_contents(table_name),CONSTRAINT fk_gtms_srs FOREIGN KEY (srs_id) REFERENCES gpkg_spatial_ref_sys(srs_id));\n"
}

/// Tile matrices (2.2.7).
fn matrix_table() -> &'static str
    ensures { result.now ≡ matrix_table }
{
    "CREATE TABLE gpkg_tile_matrix (table_name TEXT NOT NULL,zoom_level INTEGER NOT NULL,matrix_width INTEGER NOT NULL,matrix_height INTEGER NOT NULL,tile_width INTEGER NOT NULL,tile_height INTEGER NOT NULL,pixel_x_size DOUBLE NOT NULL,pixel_y_size DOUBLE NOT NULL,CONSTRAINT pk_ttm PRIMARY KEY (table_name, zoom_level),CONSTRAINT fk_tmm_table_name FOREIGN KEY (table_name) REFERENCES gpkg_contents(table_name));\n"
}

/// Extensions (2.3.2).
fn extensions_table() -> &'static str
    ensures { result.now ≡ extensions_table }
{
    "CREATE TABLE gpkg_extensions (table_name TEXT,column_name TEXT,extension_name TEXT NOT NULL,definition TEXT NOT NULL,scope TEXT NOT NULL,CONSTRAINT ge_tce UNIQUE (table_name, column_name, extension_name));\n"
}

/// Relations (OGC 18-000).
fn relations_table() -> &'static str
    ensures { result.now ≡ relations_table }
{
    "CREATE TABLE gpkgext_relations (id INTEGER PRIMARY KEY AUTOINCREMENT,base_table_name TEXT NOT NULL,base_primary_column TEXT NOT NULL DEFAULT 'id',related_table_name TEXT NOT NULL,related_primary_column TEXT NOT NULL DEFAULT 'id',relation_name TEXT NOT NULL,mapping_table_name TEXT NOT NULL UNIQUE);\n"
}

/// A tile pyramid (2.2.8).
fn tiles_table() -> &'static str
    ensures { result.now ≡ tiles_table }
{
    "CREATE TABLE sheet_tiles (id INTEGER PRIMARY KEY AUTOINCREMENT,zoom_level INTEGER NOT NULL,tile_column INTEGER NOT NULL,tile_row INTEGER NOT NULL,tile_data BLOB NOT NULL,UNIQUE (zoom_level, tile_column, tile_row));\n"
}

/// Features (2.1.6): the outline, the identity and the place of the tile that had this number when it was exported.
fn tile_identity_table() -> &'static str
    ensures { result.now ≡ tile_identity_table }
{
    "CREATE TABLE sheet_tile_identity (id INTEGER PRIMARY KEY AUTOINCREMENT,geom POLYGON,uuid TEXT NOT NULL,zoom_level INTEGER NOT NULL,tile_column INTEGER NOT NULL,tile_row INTEGER NOT NULL);\n"
}

/// Media (OGC 18-000). What another program adds has no identity yet.
fn media_table() -> &'static str
    ensures { result.now ≡ media_table }
{
    "CREATE TABLE sheet_media (id INTEGER PRIMARY KEY AUTOINCREMENT,data BLOB NOT NULL,content_type TEXT NOT NULL DEFAULT 'image/jpeg',uuid TEXT);\n"
}

/// Features (2.1.6). What another program adds has no identity yet, and a label that a form leaves empty is NULL.
fn rows_table() -> &'static str
    ensures { result.now ≡ rows_table }
{
    "CREATE TABLE sheet_rows (id INTEGER PRIMARY KEY AUTOINCREMENT,geom POINT,code INTEGER NOT NULL DEFAULT 0,label TEXT DEFAULT '',uuid TEXT);\n"
}

/// A user-defined mapping table (OGC 18-000). Without a key of its own QGIS neither changes nor deletes a link.
fn mapping_table(alloc: Global, name: &str) -> Result<String, AllocError>
    ensures { IfOk result (λ text. string_bytes text ≡ mapping_table name.now) }
{
    format!(in alloc;
        "CREATE TABLE {name} (id INTEGER PRIMARY KEY AUTOINCREMENT,base_id INTEGER NOT NULL,related_id INTEGER NOT NULL);\n"
    )
}

/// Which package it is, and the number of the last receipt of it.
fn export_table() -> &'static str
    ensures { result.now ≡ export_table }
{
    "CREATE TABLE sheet_export (package TEXT NOT NULL,ticket INTEGER NOT NULL);\n"
}

/// How tables are drawn and edited, as QGIS reads it.
fn styles_table() -> &'static str
    ensures { result.now ≡ styles_table }
{
    "CREATE TABLE layer_styles (id INTEGER PRIMARY KEY AUTOINCREMENT,f_table_catalog TEXT,f_table_schema TEXT,f_table_name TEXT,f_geometry_column TEXT,styleName TEXT,styleQML TEXT,styleSLD TEXT,useAsDefault BOOLEAN,description TEXT,owner TEXT,ui TEXT,update_time DATETIME DEFAULT (strftime('%Y-%m-%dT%H:%M:%fZ','now')));\n"
}

/// The tables that the standards name.
fn standard_tables(alloc: Global) -> Result<String, AllocError>
    ensures { IfOk result (λ text. string_bytes text ≡ standard_tables) }
{
    let systems = reference_systems_table();
    let contents = contents_table();
    let columns = geometry_columns_table();
    let sets = matrix_set_table();
    let matrices = matrix_table();
    let extensions = extensions_table();
    let relations = relations_table();
    format!(in alloc; "{systems}{contents}{columns}{sets}{matrices}{extensions}{relations}")
}

/// Those that hold items and links.
fn sheet_tables(alloc: Global) -> Result<String, AllocError>
    ensures { IfOk result (λ text. string_bytes text ≡ sheet_tables) }
{
    let tiles = tiles_table();
    let identities = tile_identity_table();
    let media = media_table();
    let rows = rows_table();
    let tiles_media = mapping_table(alloc, "tiles_media")?;
    let rows_media = mapping_table(alloc, "rows_media")?;
    let rows_tiles = mapping_table(alloc, "rows_tiles")?;
    format!(in alloc; "{tiles}{identities}{media}{rows}{tiles_media}{rows_media}{rows_tiles}")
}

/// All tables.
///
/// # Errors
///
/// Want of memory.
pub fn schema(alloc: Global) -> Result<String, AllocError>
    ensures { IfOk result (λ text. string_bytes text ≡ schema) }
{
    let standard = standard_tables(alloc)?;
    let sheets = sheet_tables(alloc)?;
    let export = export_table();
    let styles = styles_table();
    format!(in alloc; "{standard}{sheets}{export}{styles}")
}
