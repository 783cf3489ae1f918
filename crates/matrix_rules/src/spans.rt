//! Blocks of places.

/// A block of places of one zoom level, both ends included.
#[derive(Clone, Copy, PartialEq, Eq)]
pub struct Span {
    pub column: i64,
    pub last_column: i64,
    pub row: i64,
    pub last_row: i64,
}
