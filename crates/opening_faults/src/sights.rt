//! A store as the opening sees it, sound or not.
use sheet_types::collections::Text;
use sheet_types::frame::Frame;
use uuid::Uuid;

/// Whose a store is, where the table of heads has its form and its one row is in its ranges.
#[derive(Clone, Copy)]
pub struct StoreHead {
    pub uuid: Uuid,
    pub parent: Option<Uuid>,
    /// How many levels below the archive.
    pub depth: u64,
    /// The number of the split that made it; 0 of an archive.
    pub loan: u64,
}

/// What a row of a receipts table of its form claims, in its ranges or not.
#[derive(Drop)]
pub struct StoreClaim {
    pub seq: i64,
    pub line: Text,
    pub source: Text,
    pub target: Text,
}

/// What a store says of itself. The frame counts only where the store is formed, and may be any where it is not.
#[derive(Drop)]
pub struct Sight {
    pub head: Option<StoreHead>,
    pub claims: Vec<StoreClaim>,
    pub frame: Frame,
}
