// The tables of a new package, its rows and its moments, as the store lists them; and look-ups that
// no command of the program makes.

use crate::steps::wrong;
use std::test::Fail;

// The objects are as stock SQLite 3.40.1 lists them after the same statements, the rows those of
// the GeoPackage standard and of the profile.
const NEW: &str = "new archive
rows SELECT type || ' ' || name || ' ' || tbl_name FROM sqlite_schema ORDER BY name => [index \
    by_rows_media rows_media;index by_rows_tiles rows_tiles;index by_tiles_media tiles_media;index by_xy \
    sheet_rows;table gpkg_contents gpkg_contents;table gpkg_spatial_ref_sys gpkg_spatial_ref_sys;table \
    gpkg_tile_matrix gpkg_tile_matrix;table gpkg_tile_matrix_set gpkg_tile_matrix_set;table \
    gpkgext_relations gpkgext_relations;index items_by_base sheet_items;index receipts_by_target \
    sheet_receipts;table rows_media rows_media;table rows_tiles rows_tiles;table sheet_identity \
    sheet_identity;table sheet_items sheet_items;table sheet_media sheet_media;table sheet_package \
    sheet_package;table sheet_receipts sheet_receipts;table sheet_rows sheet_rows;table sheet_tiles \
    sheet_tiles;index sqlite_autoindex_gpkg_contents_1 gpkg_contents;index \
    sqlite_autoindex_gpkg_contents_2 gpkg_contents;index sqlite_autoindex_gpkg_tile_matrix_1 \
    gpkg_tile_matrix;index sqlite_autoindex_gpkg_tile_matrix_set_1 gpkg_tile_matrix_set;index \
    sqlite_autoindex_gpkgext_relations_1 gpkgext_relations;index sqlite_autoindex_rows_media_1 \
    rows_media;index sqlite_autoindex_rows_tiles_1 rows_tiles;index sqlite_autoindex_sheet_identity_1 \
    sheet_identity;index sqlite_autoindex_sheet_identity_2 sheet_identity;index \
    sqlite_autoindex_sheet_items_1 sheet_items;index sqlite_autoindex_sheet_receipts_1 \
    sheet_receipts;index sqlite_autoindex_sheet_tiles_1 sheet_tiles;index sqlite_autoindex_tiles_media_1 \
    tiles_media;table sqlite_sequence sqlite_sequence;table tiles_media tiles_media;]
rows SELECT srs_id || ' ' || srs_name || ' ' || organization || ' ' || organization_coordsys_id || ' ' || \
    definition || ' ' || description FROM gpkg_spatial_ref_sys ORDER BY srs_id => [-1 undefined cartesian \
    NONE -1 undefined ;0 undefined geographic NONE 0 undefined ;4326 WGS 84 EPSG 4326 profile ;25832 srs \
    25832 EPSG 25832 profile ;]
rows SELECT table_name || ' ' || data_type || ' ' || identifier || ' ' || description || ' ' || \
    last_change FROM gpkg_contents ORDER BY table_name => [sheet_media attributes sheet_media  \
    2026-11-22T09:00:00.000Z;sheet_rows attributes sheet_rows  2026-11-22T09:00:00.000Z;sheet_tiles tiles \
    sheet_tiles  2026-11-22T09:00:00.000Z;]
rows SELECT min_x || ' ' || min_y || ' ' || max_x || ' ' || max_y || ' ' || srs_id FROM gpkg_contents \
    ORDER BY table_name => [0 0 4096 4096 25832;0 0 4096 4096 25832;0 0 4096 4096 25832;]
rows SELECT table_name || ' ' || srs_id || ' ' || min_x || ' ' || min_y || ' ' || max_x || ' ' || max_y \
    FROM gpkg_tile_matrix_set => [sheet_tiles 25832 0 0 4096 4096;]
rows SELECT table_name || ' ' || zoom_level || ' ' || matrix_width || ' ' || matrix_height || ' ' || \
    tile_width || ' ' || tile_height || ' ' || pixel_x_size || ' ' || pixel_y_size FROM gpkg_tile_matrix \
    ORDER BY zoom_level => [sheet_tiles 0 1 1 256 256 16 16;sheet_tiles 1 2 2 256 256 8 8;sheet_tiles 2 4 \
    4 256 256 4 4;]
rows SELECT id || ' ' || base_table_name || ' ' || base_primary_column || ' ' || related_table_name || ' ' \
    || related_primary_column || ' ' || relation_name || ' ' || mapping_table_name FROM gpkgext_relations \
    ORDER BY id => [1 sheet_tiles id sheet_media id media tiles_media;2 sheet_rows id sheet_media id media \
    rows_media;3 sheet_rows id sheet_tiles id tiles rows_tiles;]
rows SELECT id || ' ' || version || ' ' || package || ' ' || parent || ' ' || depth || ' ' || loan || ' ' \
    || created FROM sheet_package => [1 2 00000000-0000-0000-0000-000000000001  0 0 \
    2026-11-22T09:00:00.000Z;]
cut none => []";

// The moment of a change is that of the three tables, and the package was made when it was.
const DATED: &str = "new archive 3857 -4096 -2048 4096 2048 256 256 0 1 2 1
date at 2027-01-02T03:04:05.006Z
rows SELECT table_name || ' ' || last_change || ' ' || min_x || ' ' || min_y || ' ' || max_x || ' ' || \
    max_y || ' ' || srs_id FROM gpkg_contents ORDER BY table_name => [sheet_media 2027-01-02T03:04:05.006Z \
    -4096 -2048 4096 2048 3857;sheet_rows 2027-01-02T03:04:05.006Z -4096 -2048 4096 2048 3857;sheet_tiles \
    2027-01-02T03:04:05.006Z -4096 -2048 4096 2048 3857;]
rows SELECT created FROM sheet_package => [2026-11-22T09:00:00.000Z;]";

// Numbers below and above each other's, and rows at each edge.
const LOOK_UPS: &str = "new archive
alter INSERT INTO sheet_tiles VALUES (8, 2, 1, 1, x'61'), (-3, 2, 3, 2, x'62'), (1, 2, 4, 1, x'63'), (3, \
    2, 2, 3, x'64')
alter INSERT INTO sheet_media VALUES (5, x'706e67', 'image/png')
alter INSERT INTO sheet_rows VALUES (7, 10, 30, 0, ''), (2, 20, 30, 0, ''), (6, 10, 20, 0, ''), (1, 19, \
    21, 0, '')
ask has_tile 8 => [yes]
ask has_tile -3 => [yes]
ask has_tile 5 => [no]
ask has_medium 5 => [yes]
ask has_medium 8 => [no]
ask has_row 7 => [yes]
ask has_row 5 => [no]
ask tile_at 2 2 3 => [yes]
ask tile_at 2 3 2 => [yes]
ask tile_at 2 3 3 => [no]
# columns 1 to 3 in rows 1 and 2, of one zoom and of another
ask tiles_between 2 1 3 1 2 => [2]
ask tiles_between 1 1 3 1 2 => [0]
ask tiles_between 2 1 4 1 3 => [4]
# the west and north edges belong to a ground, the east and south edges do not
ask rows_within 10 20 20 30 => [2]
ask rows_within 10 21 19 30 => [4]
ask is_inert => [yes]
alter CREATE TABLE child (id INTEGER PRIMARY KEY, of INTEGER REFERENCES sheet_media (id) ON DELETE \
    CASCADE) STRICT
ask is_inert => [no]";

#[test]
fn a_new_package_has_its_objects_and_its_fixed_rows(rt: HostRuntime) -> Result<(), Fail> {
    assert_eq!(rt; wrong(rt.alloc(), NEW)?.as_str(), "");
    Ok(())
}

#[test]
fn a_change_dates_each_table_and_no_more(rt: HostRuntime) -> Result<(), Fail> {
    assert_eq!(rt; wrong(rt.alloc(), DATED)?.as_str(), "");
    Ok(())
}

#[test]
fn rows_are_found_by_number_place_and_range(rt: HostRuntime) -> Result<(), Fail> {
    assert_eq!(rt; wrong(rt.alloc(), LOOK_UPS)?.as_str(), "");
    Ok(())
}
