//! The columns of a list by their places in a record (profile; their names are in `lists`).

/// How many there are; a record has a field for each.
pub const COUNT: usize = 18;

/// The identity of the request.
pub const REQUEST: usize = 0;

/// Its moment.
pub const AT: usize = 1;

/// The word of its command.
pub const COMMAND: usize = 2;

/// The package that it asks something of; of a merge the child.
pub const PACKAGE: usize = 3;

/// The item that is added or deleted; the base of a link.
pub const IDENTITY: usize = 4;

/// The other end of a link; the child of a split; the package that a merge brings it home to.
pub const OTHER: usize = 5;

/// The kind of an item, the mapping of a link, or the mode of a split.
pub const KIND: usize = 6;

/// The zoom of a tile or a rectangle.
pub const ZOOM: usize = 7;

/// The column of a tile, or the first of a rectangle.
pub const COLUMN: usize = 8;

/// The row of a tile, or the first of a rectangle.
pub const ROW: usize = 9;

/// The last column of a rectangle.
pub const LAST_COLUMN: usize = 10;

/// The last row of a rectangle.
pub const LAST_ROW: usize = 11;

/// The point of an attributes row, from west to east.
pub const X: usize = 12;

/// The point of an attributes row, from south to north.
pub const Y: usize = 13;

/// The code of an attributes row.
pub const CODE: usize = 14;

/// The ticket of a merge.
pub const TICKET: usize = 15;

/// The label of an attributes row, or the content type of a medium.
pub const TEXT: usize = 16;

/// The bytes of a tile or a medium, in hexadecimal.
pub const DATA: usize = 17;
