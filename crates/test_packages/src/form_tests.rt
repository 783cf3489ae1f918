// What stores in memory say of themselves. The expected values follow from the rows that each test
// puts in: the package 2 is a loan of package 1, one level below it, made by the split 7.

use crate::steps::wrong;
use std::test::Fail;

// Each way in which a table can be another one.
const FORMS: &str = "new loan
form has_form => [yes]
form head => [2;1;1;7;]
form claims => []
form in_range => [yes]
form are_dated => [yes]
# what else a store has is no part of the form
alter CREATE TABLE notes (n INTEGER); CREATE INDEX by_code ON sheet_rows (code); DROP INDEX by_xy
form has_form => [yes]

new loan
# a NULL beside the rowid
alter UPDATE gpkg_contents SET srs_id = NULL
form has_form => [no]
form head => [2;1;1;7;]

new loan
alter UPDATE gpkg_spatial_ref_sys SET description = NULL WHERE srs_id = 0
form has_form => [no]
form head => [2;1;1;7;]

new loan
# a table that is not there
alter DROP TABLE sheet_items
form has_form => [no]
form head => [2;1;1;7;]

new loan
# one with a column less, with one more, with another type, without NOT NULL, without its UNIQUE
alter DROP TABLE rows_tiles; CREATE TABLE rows_tiles (base_id INTEGER NOT NULL) STRICT
form has_form => [no]
form head => [2;1;1;7;]

new loan
alter DROP TABLE rows_tiles; CREATE TABLE rows_tiles (base_id INTEGER NOT NULL, related_id INTEGER NOT \
    NULL, x INTEGER NOT NULL, UNIQUE (base_id, related_id)) STRICT
form has_form => [no]
form head => [2;1;1;7;]

new loan
alter DROP TABLE rows_tiles; CREATE TABLE rows_tiles (base_id INTEGER NOT NULL, related_id TEXT NOT NULL, \
    UNIQUE (base_id, related_id)) STRICT
form has_form => [no]
form head => [2;1;1;7;]

new loan
alter DROP TABLE rows_tiles; CREATE TABLE rows_tiles (base_id INTEGER NOT NULL, related_id INTEGER, UNIQUE \
    (base_id, related_id)) STRICT
form has_form => [no]
form head => [2;1;1;7;]

new loan
alter DROP TABLE rows_tiles; CREATE TABLE rows_tiles (base_id INTEGER NOT NULL, related_id INTEGER NOT \
    NULL) STRICT
form has_form => [no]
form head => [2;1;1;7;]

new loan
# one that is not STRICT, and one with a DEFAULT, a CHECK and a reference
alter DROP TABLE rows_tiles; CREATE TABLE rows_tiles (base_id INTEGER NOT NULL, related_id INTEGER NOT \
    NULL, UNIQUE (base_id, related_id))
form has_form => [no]
form head => [2;1;1;7;]

new loan
alter DROP TABLE rows_tiles; CREATE TABLE rows_tiles (base_id INTEGER NOT NULL DEFAULT 1, related_id \
    INTEGER NOT NULL, UNIQUE (base_id, related_id)) STRICT
form has_form => [no]
form head => [2;1;1;7;]

new loan
alter DROP TABLE rows_tiles; CREATE TABLE rows_tiles (base_id INTEGER NOT NULL, related_id INTEGER NOT \
    NULL CHECK (related_id > 0), UNIQUE (base_id, related_id)) STRICT
form has_form => [no]
form head => [2;1;1;7;]

new loan
alter DROP TABLE rows_tiles; CREATE TABLE rows_tiles (base_id INTEGER NOT NULL, related_id INTEGER NOT \
    NULL REFERENCES sheet_tiles (id), UNIQUE (base_id, related_id)) STRICT
form has_form => [no]
form head => [2;1;1;7;]

new loan
# one whose numbers are not counted
alter DROP TABLE sheet_media; CREATE TABLE sheet_media (id INTEGER PRIMARY KEY, data BLOB NOT NULL, \
    content_type TEXT NOT NULL) STRICT
form has_form => [no]
form head => [2;1;1;7;]

new loan
# the same keys in other words: a UNIQUE behind the primary key, columns of a key in another order, downwards
alter DROP TABLE sheet_identity; CREATE TABLE sheet_identity (kind INTEGER NOT NULL, local_id INTEGER NOT \
    NULL, uuid TEXT NOT NULL, PRIMARY KEY (kind, local_id), UNIQUE (uuid)) STRICT
form has_form => [yes]
alter DROP TABLE rows_tiles; CREATE TABLE rows_tiles (base_id INTEGER NOT NULL, related_id INTEGER NOT \
    NULL, UNIQUE (related_id DESC, base_id), UNIQUE (base_id, related_id)) STRICT
form has_form => [yes]

new loan
# a reference without a column means the primary key; the references in another order
alter DROP TABLE gpkg_tile_matrix_set; CREATE TABLE gpkg_tile_matrix_set (table_name TEXT NOT NULL PRIMARY \
    KEY, srs_id INTEGER NOT NULL REFERENCES gpkg_spatial_ref_sys, min_x INTEGER NOT NULL, min_y INTEGER NOT \
    NULL, max_x INTEGER NOT NULL, max_y INTEGER NOT NULL, FOREIGN KEY (table_name) REFERENCES gpkg_contents) \
    STRICT
form has_form => [yes]

new loan
# a key of other columns, one that takes two cases of a letter for one, a reference to another column
alter DROP TABLE sheet_identity; CREATE TABLE sheet_identity (kind INTEGER NOT NULL, local_id INTEGER NOT \
    NULL, uuid TEXT NOT NULL, PRIMARY KEY (kind, local_id), UNIQUE (uuid, kind)) STRICT
form has_form => [no]

new loan
alter DROP TABLE sheet_identity; CREATE TABLE sheet_identity (kind INTEGER NOT NULL, local_id INTEGER NOT \
    NULL, uuid TEXT NOT NULL, PRIMARY KEY (kind, local_id), UNIQUE (uuid COLLATE NOCASE)) STRICT
form has_form => [no]

new loan
alter DROP TABLE gpkg_tile_matrix_set; CREATE TABLE gpkg_tile_matrix_set (table_name TEXT NOT NULL PRIMARY \
    KEY REFERENCES gpkg_contents (identifier), srs_id INTEGER NOT NULL REFERENCES gpkg_spatial_ref_sys, min_x \
    INTEGER NOT NULL, min_y INTEGER NOT NULL, max_x INTEGER NOT NULL, max_y INTEGER NOT NULL) STRICT
form has_form => [no]

new nothing
form has_form => [no]
form head => [-]
form claims => []";

// Each takes the head away.
const HEADS: &str = "new loan
alter UPDATE sheet_package SET version = 3
form head => [-]

new loan
alter INSERT INTO sheet_package SELECT 2, version, package, parent, depth, loan, created FROM sheet_package
form head => [-]

new loan
alter DELETE FROM sheet_package
form head => [-]

new loan
alter UPDATE sheet_package SET package = 'X'
form head => [-]

new loan
alter UPDATE sheet_package SET parent = '00000000-0000-0000-0000-00000000000A'
form head => [-]

new loan
alter UPDATE sheet_package SET depth = -1
form head => [-]

new loan
alter UPDATE sheet_package SET depth = 5
form head => [-]

new loan
alter UPDATE sheet_package SET loan = -1
form head => [-]";

// A moment that is none, and receipts in the order of their numbers, those that are none behind.
const SAID: &str = "new loan
form are_dated => [yes]
alter UPDATE gpkg_contents SET last_change = '2026-11-22T24:00:00.000Z' WHERE table_name = 'sheet_rows'
form are_dated => [no]

new loan
alter INSERT INTO sheet_receipts VALUES (3, 'c', 'x', 'three', '', 'T', 0, 0, 0, 0, 0)
alter INSERT INTO sheet_receipts VALUES (-5, 'e', '', 'five', 'S', '', 0, 0, 0, 0, 0)
alter INSERT INTO sheet_receipts VALUES (1, 'a', '', 'one', 'S', 'T', -1, 0, 0, 0, 0)
form claims => [1 one S T;3 three  T;-5 five S ;]";

// The second is of the same ground in other tiles, under one of the three reference systems that
// each package has; each of the others takes the frame away.
const FRAMES: &str = "new loan
form frame => [25832;0;0;4096;4096;256;256;0;3;1;1;]
# the moment is no part of the frame
alter UPDATE gpkg_contents SET last_change = ''
form frame => [25832;0;0;4096;4096;256;256;0;3;1;1;]

new loan 4326 -2048 -2048 2048 2048 512 128 5 2 2 4
form frame => [4326;-2048;-2048;2048;2048;512;128;5;2;2;4;]

new loan
alter UPDATE gpkg_spatial_ref_sys SET description = 'x' WHERE srs_id = 0
form frame => [-]

new loan
alter INSERT INTO gpkg_spatial_ref_sys VALUES ('srs 7', 7, 'EPSG', 7, 'profile', '')
form frame => [-]

new loan
alter UPDATE gpkg_contents SET data_type = 'tiles' WHERE table_name = 'sheet_rows'
form frame => [-]

new loan
alter UPDATE gpkg_tile_matrix_set SET min_x = -4096
form frame => [-]

new loan
alter DELETE FROM gpkg_tile_matrix_set
form frame => [-]

new loan
alter UPDATE gpkg_tile_matrix SET pixel_x_size = 5 WHERE zoom_level = 1
form frame => [-]

new loan
alter DELETE FROM gpkg_tile_matrix WHERE zoom_level = 1
form frame => [-]

new loan
alter DELETE FROM gpkg_tile_matrix
form frame => [-]

new loan
alter UPDATE gpkgext_relations SET relation_name = 'media' WHERE id = 3
form frame => [-]";

#[test]
fn a_store_has_the_form_of_a_package_or_not(rt: HostRuntime) -> Result<(), Fail> {
    assert_eq!(rt; wrong(rt.alloc(), FORMS)?.as_str(), "");
    Ok(())
}

#[test]
fn a_store_has_a_head_or_none(rt: HostRuntime) -> Result<(), Fail> {
    assert_eq!(rt; wrong(rt.alloc(), HEADS)?.as_str(), "");
    Ok(())
}

#[test]
fn a_store_says_moments_and_claims(rt: HostRuntime) -> Result<(), Fail> {
    assert_eq!(rt; wrong(rt.alloc(), SAID)?.as_str(), "");
    Ok(())
}

#[test]
fn a_store_has_the_frame_of_its_rows_or_none(rt: HostRuntime) -> Result<(), Fail> {
    assert_eq!(rt; wrong(rt.alloc(), FRAMES)?.as_str(), "");
    Ok(())
}
