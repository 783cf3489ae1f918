// What changes do to the tables of a package in memory. The expected rows are written by hand, from
// what each change is to put in or take out.

use crate::steps::wrong;
use std::test::Fail;

// The first tile and the second medium have the same local number.
const CHANGES: &str = "new archive
alter INSERT INTO sheet_tiles VALUES (7, 2, 3, 1, x'6162'), (9, 2, 0, 0, x'63')
alter INSERT INTO sheet_media VALUES (4, x'706e67', 'image/png'), (7, x'', 'image/jpeg')
alter INSERT INTO sheet_rows VALUES (3, 100, -7, 31, 'well')
alter INSERT INTO sheet_identity VALUES (1, 7, '00000000-0000-0000-0000-000000000001'), (1, 9, \
    '00000000-0000-0000-0000-000000000002'), (2, 4, '00000000-0000-0000-0000-000000000003')
alter INSERT INTO sheet_identity VALUES (2, 7, '00000000-0000-0000-0000-000000000004'), (3, 3, \
    '00000000-0000-0000-0000-000000000005')
link tiles_media 1 3
rows SELECT base_id || ' ' || related_id FROM tiles_media ORDER BY base_id, related_id => [7 4;]
rows SELECT base_id || ' ' || related_id FROM rows_media ORDER BY base_id, related_id => []
link rows_media 5 4
link rows_tiles 5 2
rows SELECT base_id || ' ' || related_id FROM tiles_media ORDER BY base_id, related_id => [7 4;]
rows SELECT base_id || ' ' || related_id FROM rows_media ORDER BY base_id, related_id => [3 7;]
rows SELECT base_id || ' ' || related_id FROM rows_tiles ORDER BY base_id, related_id => [3 9;]
cut none => [1;2;3;4;5;tile-medium 1 3;row-medium 5 4;row-tile 5 2;]
# each with its size and the first two bytes of its fingerprint, by Python's hashlib
cut each => [1 2 82 143;2 1 200 102;3 3 236 231;4 0 169 157;5 4 56 198;\
    tile-medium 1 3;row-medium 5 4;row-tile 5 2;]
unlink tiles_media 1 3
rows SELECT base_id || ' ' || related_id FROM tiles_media ORDER BY base_id, related_id => []
rows SELECT base_id || ' ' || related_id FROM rows_media ORDER BY base_id, related_id => [3 7;]
unlink rows_media 5 4
unlink rows_tiles 5 2
rows SELECT base_id || ' ' || related_id FROM rows_media ORDER BY base_id, related_id => []
rows SELECT base_id || ' ' || related_id FROM rows_tiles ORDER BY base_id, related_id => []
delete item 1
rows SELECT id || ' ' || zoom_level || ' ' || tile_column || ' ' || tile_row || ' ' || length(tile_data) \
    FROM sheet_tiles ORDER BY id => [9 2 0 0 1;]
rows SELECT id || ' ' || length(data) || ' ' || content_type FROM sheet_media ORDER BY id => [4 3 \
    image/png;7 0 image/jpeg;]
rows SELECT kind || ' ' || local_id || ' ' || uuid FROM sheet_identity ORDER BY kind, local_id => [1 9 \
    00000000-0000-0000-0000-000000000002;2 4 00000000-0000-0000-0000-000000000003;2 7 \
    00000000-0000-0000-0000-000000000004;3 3 00000000-0000-0000-0000-000000000005;]
delete item 4
rows SELECT id || ' ' || length(data) || ' ' || content_type FROM sheet_media ORDER BY id => [4 3 \
    image/png;]
rows SELECT kind || ' ' || local_id || ' ' || uuid FROM sheet_identity ORDER BY kind, local_id => [1 9 \
    00000000-0000-0000-0000-000000000002;2 4 00000000-0000-0000-0000-000000000003;3 3 \
    00000000-0000-0000-0000-000000000005;]
delete item 5
rows SELECT id || ' ' || x || ' ' || y || ' ' || code || ' ' || label FROM sheet_rows ORDER BY id => []
rows SELECT id || ' ' || zoom_level || ' ' || tile_column || ' ' || tile_row || ' ' || length(tile_data) \
    FROM sheet_tiles ORDER BY id => [9 2 0 0 1;]
rows SELECT kind || ' ' || local_id || ' ' || uuid FROM sheet_identity ORDER BY kind, local_id => [1 9 \
    00000000-0000-0000-0000-000000000002;2 4 00000000-0000-0000-0000-000000000003;]";

// A medium of 3 bytes has the last number that may be.
const NUMBERS: &str = "new archive
alter INSERT INTO sheet_media VALUES (1000000, x'746966', 'image/tiff')
alter INSERT INTO sheet_identity VALUES (2, 1000000, '00000000-0000-0000-0000-000000000003')
add medium 6 image/png png
rows SELECT id || ' ' || length(data) || ' ' || content_type FROM sheet_media ORDER BY id => [1 3 \
    image/png;1000000 3 image/tiff;]
add medium 7 image/png png
rows SELECT id || ' ' || length(data) || ' ' || content_type FROM sheet_media ORDER BY id => [1 3 \
    image/png;2 3 image/png;1000000 3 image/tiff;]
add tile 8 2 1 3 webp
rows SELECT id || ' ' || zoom_level || ' ' || tile_column || ' ' || tile_row || ' ' || length(tile_data) \
    FROM sheet_tiles ORDER BY id => [1 2 1 3 4;]
rows SELECT kind || ' ' || local_id || ' ' || uuid FROM sheet_identity ORDER BY kind, local_id => [1 1 \
    00000000-0000-0000-0000-000000000008;2 1 00000000-0000-0000-0000-000000000006;2 2 \
    00000000-0000-0000-0000-000000000007;2 1000000 00000000-0000-0000-0000-000000000003;]";

// The least and the greatest numbers, nothing for bytes and for texts, and a label whose last
// characters are of two bytes.
const ENDS: &str = "new archive
add row 1 -9223372036854775808 9223372036854775807 -1 A well at the old mill, dry since the spring; see \
    the sheet to the west. A well at the old mill, dry since the spring; see the sheet to the west. A well \
    at the old mill, dry since the spring; see the sheet to the west. A well at the old mill, dry since \
    the spring; see tééééééééééééééééééééééééééééé
add row 2 0 0 9223372036854775807 -
add tile 3 20 9223372036854775807 0 -
add medium 4 - -
rows SELECT id || ' ' || x || ' ' || y || ' ' || code || ' ' || label FROM sheet_rows ORDER BY id => [1 \
    -9223372036854775808 9223372036854775807 -1 A well at the old mill, dry since the spring; see the \
    sheet to the west. A well at the old mill, dry since the spring; see the sheet to the west. A well at \
    the old mill, dry since the spring; see the sheet to the west. A well at the old mill, dry since the \
    spring; see tééééééééééééééééééééééééééééé;2 0 0 9223372036854775807 ;]
rows SELECT id || ' ' || zoom_level || ' ' || tile_column || ' ' || tile_row || ' ' || length(tile_data) \
    FROM sheet_tiles ORDER BY id => [1 20 9223372036854775807 0 0;]
rows SELECT id || ' ' || length(data) || ' ' || content_type FROM sheet_media ORDER BY id => [1 0 ;]
link rows_tiles 2 3
cut none => [3;4;1;2;row-tile 2 3;]
# numbers of rows as great as there are
alter INSERT INTO sheet_tiles VALUES (9223372036854775807, 2, 3, 3, x'7a')
alter INSERT INTO sheet_media VALUES (9223372036854775807, x'7a', 'image/png')
alter INSERT INTO sheet_identity VALUES (1, 9223372036854775807, '00000000-0000-0000-0000-000000000009'), \
    (2, 9223372036854775807, '00000000-0000-0000-0000-00000000000a')
link tiles_media 9 10
rows SELECT base_id || ' ' || related_id FROM tiles_media ORDER BY base_id, related_id => \
    [9223372036854775807 9223372036854775807;]
ask tile_at 2 3 3 => [yes]
ask has_tile 9223372036854775807 => [yes]
unlink tiles_media 9 10
delete item 9
ask has_tile 9223372036854775807 => [no]
rows SELECT id || ' ' || zoom_level || ' ' || tile_column || ' ' || tile_row || ' ' || length(tile_data) \
    FROM sheet_tiles ORDER BY id => [1 20 9223372036854775807 0 0;]";

#[test]
fn links_come_and_go_and_items_of_each_kind_are_deleted(rt: HostRuntime) -> Result<(), Fail> {
    assert_eq!(rt; wrong(rt.alloc(), CHANGES)?.as_str(), "");
    Ok(())
}

#[test]
fn numbers_are_found_below_the_last_that_may_be(rt: HostRuntime) -> Result<(), Fail> {
    assert_eq!(rt; wrong(rt.alloc(), NUMBERS)?.as_str(), "");
    Ok(())
}

#[test]
fn the_least_and_the_greatest_values_are_kept(rt: HostRuntime) -> Result<(), Fail> {
    assert_eq!(rt; wrong(rt.alloc(), ENDS)?.as_str(), "");
    Ok(())
}
