// A store of the first version is brought to the second, or left as it was.

use crate::steps::wrong;
use std::test::Fail;

// A package of the second version with a tile, a medium, a row, two links and a receipt.
const BROUGHT: &str = "new archive
add tile 1 2 3 1 ab
add medium 2 image/png png
add row 3 100 200 31 well
link tiles_media 1 2
link rows_media 3 2
enter of 1 10 1
form are_free => [no]
turn back => [done]
rows SELECT version || ' ' || package || ' ' || created FROM sheet_package => [1 \
    00000000-0000-0000-0000-000000000001 2026-11-22T09:00:00.000Z;]
rows SELECT mapping_table_name FROM gpkgext_relations ORDER BY id => [tiles_media;rows_media;]
form are_free => [yes]
turn brought => [done]
rows SELECT version || ' ' || package || ' ' || created FROM sheet_package => [2 \
    00000000-0000-0000-0000-000000000001 2026-11-22T09:00:00.000Z;]
rows SELECT mapping_table_name FROM gpkgext_relations ORDER BY id => [tiles_media;rows_media;rows_tiles;]
form are_free => [no]
cut none => [1;2;3;tile-medium 1 2;row-medium 3 2;]
rows SELECT '' || seq FROM sheet_receipts => [1;]
# a row and a tile come to be linked, which the first version had no table for
link rows_tiles 3 1
cut none => [1;2;3;tile-medium 1 2;row-medium 3 2;row-tile 3 1;]

new archive
add tile 1 2 3 1 ab
add medium 2 image/png png
add row 3 100 200 31 well
link tiles_media 1 2
link rows_media 3 2
enter of 1 10 1
# one of the second version has the table
turn brought => [StoreFault]
rows SELECT version || ' ' || package || ' ' || created FROM sheet_package => [2 \
    00000000-0000-0000-0000-000000000001 2026-11-22T09:00:00.000Z;]
rows SELECT mapping_table_name FROM gpkgext_relations ORDER BY id => [tiles_media;rows_media;rows_tiles;]
# the name of the index is taken, and the table that was made before goes again
turn back => [done]
alter CREATE TABLE by_rows_tiles (x INTEGER) STRICT
form are_free => [no]
turn brought => [StoreFault]
rows SELECT version || ' ' || package || ' ' || created FROM sheet_package => [1 \
    00000000-0000-0000-0000-000000000001 2026-11-22T09:00:00.000Z;]
rows SELECT mapping_table_name FROM gpkgext_relations ORDER BY id => [tiles_media;rows_media;]
alter DROP TABLE by_rows_tiles
form are_free => [yes]
turn brought => [done]
rows SELECT version || ' ' || package || ' ' || created FROM sheet_package => [2 \
    00000000-0000-0000-0000-000000000001 2026-11-22T09:00:00.000Z;]
rows SELECT mapping_table_name FROM gpkgext_relations ORDER BY id => [tiles_media;rows_media;rows_tiles;]";

#[test]
fn a_store_of_the_first_version_is_brought_or_stays(rt: HostRuntime) -> Result<(), Fail> {
    assert_eq!(rt; wrong(rt.alloc(), BROUGHT)?.as_str(), "");
    Ok(())
}
