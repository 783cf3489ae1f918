//! What is drawn of each package.

use uuid::Uuid;

/// A place of one zoom: columns are counted from the west and rows from the north, from 0 (OGC GeoPackage 1.3, 2.2.7).
#[derive(Clone, Copy, PartialEq, Eq)]
pub struct Place {
    pub column: u64,
    pub row: u64,
}

/// A live package, and the places of the tiles that it holds at the zoom of a map.
#[derive(Drop)]
pub struct Holder {
    /// The package's own.
    pub uuid: Uuid,
    /// How many loans it is below the archive, which has 0.
    pub depth: u64,
    /// Each place once.
    pub places: Vec<Place>,
}
