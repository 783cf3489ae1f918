//! What opening finds out of the claims: which stores are live, and which splits are open.
use crate::sights::StoreHead;
use sheet_types::collections::Text;

/// A split that is open: the head of the store in which it stands, and what it claims.
#[derive(Drop)]
pub struct OpenSplit {
    /// The head of the store in which it stands.
    pub above: StoreHead,
    /// The text under which the package was lent.
    pub target: Text,
    /// The number of the split.
    pub seq: i64,
}

/// Which stores are live, place by place, and the open splits of those that are.
#[derive(Drop)]
pub struct Reached {
    pub live: Vec<bool>,
    pub splits: Vec<OpenSplit>,
}
