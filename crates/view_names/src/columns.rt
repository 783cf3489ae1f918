//! The columns of a file of names by their places in a record; their names are in `lists`.

/// How many there are; a record has a field for each.
pub(crate) const COUNT: usize = 2;

/// The UUID of a package or of a sheet.
pub(crate) const UUID: usize = 0;

/// What people call it.
pub(crate) const NAME: usize = 1;
