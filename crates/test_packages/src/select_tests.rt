// Selections in stores, worked out by hand. The first rectangle is the upper left quarter of a
// frame of 4096 by 4096: x from 0 to 2048 and y from 2048 to 4096. What a cut takes is the same
// without the four indexes that ranges and ends are found by.

use crate::steps::wrong;
use std::test::Fail;

// `1 0 0 0 0` is the upper left of the four tiles of zoom 1.
const CUTS: &str = "new archive
add tile 1 0 0 0 A
add tile 2 1 0 0 A
add tile 3 2 0 0 A
add tile 4 2 1 0 A
add tile 5 2 0 1 A
add tile 6 2 1 1 A
add tile 7 2 2 0 A
cut strict 1 0 0 0 0 => [2;3;4;5;6;]
alter DROP INDEX by_xy; DROP INDEX by_tiles_media; DROP INDEX by_rows_media; DROP INDEX by_rows_tiles
cut strict 1 0 0 0 0 => [2;3;4;5;6;]

new archive
# points on the edges of the ground
add row 1 0 4096 0 -
add row 2 2047 2049 0 -
add row 3 2048 3000 0 -
add row 4 0 2048 0 -
cut strict 1 0 0 0 0 => [1;2;]
alter DROP INDEX by_xy; DROP INDEX by_tiles_media; DROP INDEX by_rows_media; DROP INDEX by_rows_tiles
cut strict 1 0 0 0 0 => [1;2;]

new archive
# a tile inside and a row outside have one medium
add tile 1 1 0 0 A
add row 2 3000 1000 0 -
add medium 3 image/jpeg JP
link tiles_media 1 3
link rows_media 2 3
cut strict 1 0 0 0 0 => [cuts a link of 3]
cut follow 1 0 0 0 0 => [1;2;3;tile-medium 1 3;row-medium 2 3;]
alter DROP INDEX by_xy; DROP INDEX by_tiles_media; DROP INDEX by_rows_media; DROP INDEX by_rows_tiles
cut strict 1 0 0 0 0 => [cuts a link of 3]
cut follow 1 0 0 0 0 => [1;2;3;tile-medium 1 3;row-medium 2 3;]

new archive
# from the tile inside over its medium to a tile outside, and on to that one's second medium
add tile 1 1 0 0 A
add tile 2 1 1 0 A
add tile 5 1 1 1 A
add medium 3 image/jpeg JP
add medium 4 image/jpeg JP
link tiles_media 1 3
link tiles_media 2 3
link tiles_media 2 4
cut follow 1 0 0 0 0 => [1;2;3;4;tile-medium 1 3;tile-medium 2 3;tile-medium 2 4;]
alter DROP INDEX by_xy; DROP INDEX by_tiles_media; DROP INDEX by_rows_media; DROP INDEX by_rows_tiles
cut follow 1 0 0 0 0 => [1;2;3;4;tile-medium 1 3;tile-medium 2 3;tile-medium 2 4;]

new archive
# a row inside is related to a tile outside
add row 1 100 4000 0 -
add tile 2 1 1 1 A
link rows_tiles 1 2
cut strict 1 0 0 0 0 => [cuts a link of 1]
cut follow 1 0 0 0 0 => [1;2;row-tile 1 2;]
alter DROP INDEX by_xy; DROP INDEX by_tiles_media; DROP INDEX by_rows_media; DROP INDEX by_rows_tiles
cut strict 1 0 0 0 0 => [cuts a link of 1]
cut follow 1 0 0 0 0 => [1;2;row-tile 1 2;]";

// A tile at each place of three zooms, numbered by columns: of each zoom all places within the
// ground are taken, and of a coarser zoom those alone that lie inside as a whole.
const FULL_MATRIX: &str = "new archive
add tile 1 0 0 0 A
add tile 2 1 0 0 A
add tile 3 1 0 1 A
add tile 4 1 1 0 A
add tile 5 1 1 1 A
add tile 6 2 0 0 A
add tile 7 2 0 1 A
add tile 8 2 0 2 A
add tile 9 2 0 3 A
add tile 10 2 1 0 A
add tile 11 2 1 1 A
add tile 12 2 1 2 A
add tile 13 2 1 3 A
add tile 14 2 2 0 A
add tile 15 2 2 1 A
add tile 16 2 2 2 A
add tile 17 2 2 3 A
add tile 18 2 3 0 A
add tile 19 2 3 1 A
add tile 20 2 3 2 A
add tile 21 2 3 3 A
cut strict 1 0 0 0 0 => [2;6;7;10;11;]
cut strict 2 1 3 0 3 => [4;5;10;11;12;13;14;15;16;17;18;19;20;21;]
cut strict 2 0 3 0 3 => [1;2;3;4;5;6;7;8;9;10;11;12;13;14;15;16;17;18;19;20;21;]";

#[test]
fn cuts_are_the_same_without_indexes(rt: HostRuntime) -> Result<(), Fail> {
    assert_eq!(rt; wrong(rt.alloc(), CUTS)?.as_str(), "");
    Ok(())
}

#[test]
fn spans_of_a_full_matrix(rt: HostRuntime) -> Result<(), Fail> {
    assert_eq!(rt; wrong(rt.alloc(), FULL_MATRIX)?.as_str(), "");
    Ok(())
}
