//! What the judge sees of a package.

use sheet_types::collections::MovedList;
use sheet_types::receipt::Receipt;
use uuid::Uuid;

/// A package as the judge sees it: who it is, what it holds as receipts say it, and the receipts
/// that stand in it. No content is needed: an item is told by its kind, identity, size and digest.
#[derive(Drop)]
pub struct Sight {
    pub uuid: Uuid,
    /// The package that it was lent by; none of the archive.
    pub parent: Option<Uuid>,
    /// The number of the split that made it; 0 of the archive.
    pub loan: u64,
    /// Its items, as `Moved::of_item` says them, in their order.
    pub items: MovedList,
    /// Its links, as `Moved::of_link` says them, in their order.
    pub links: MovedList,
    /// Its receipts, in the order of their numbers.
    pub receipts: Vec<Receipt>,
}
