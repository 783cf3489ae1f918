//! The columns of a list by their places in a record; their names are in `lists`.

/// How many there are; a record has a field for each.
pub(crate) const COUNT: usize = 12;

/// The word of a record.
pub(crate) const KIND: usize = 0;

/// The number of an item, the base of a link, a ticket, a system or a count.
pub(crate) const NUMBER: usize = 1;

/// The other end of a link.
pub(crate) const OTHER: usize = 2;

/// The identity of an item, or a package.
pub(crate) const IDENTITY: usize = 3;

/// The zoom of a tile.
pub(crate) const ZOOM: usize = 4;

/// The column of a tile.
pub(crate) const COLUMN: usize = 5;

/// The row of a tile.
pub(crate) const ROW: usize = 6;

/// The point of a row, from west to east.
pub(crate) const X: usize = 7;

/// The point of a row, from south to north.
pub(crate) const Y: usize = 8;

/// The code of a row.
pub(crate) const CODE: usize = 9;

/// A label, a content type, a frame, or what is wrong with a record.
pub(crate) const TEXT: usize = 10;

/// The bytes of a tile or a medium, in hexadecimal.
pub(crate) const DATA: usize = 11;
