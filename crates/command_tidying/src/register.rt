//! What is known of a register before a store is taken for one that it can do without.
use sheet_types::receipt::Receipt;
use uuid::Uuid;

/// The live packages of a register, and all its receipts.
#[derive(Drop)]
pub struct Register {
    /// The packages that live, by UUID.
    pub live: Vec<Uuid>,
    /// The receipts of all of them, by number.
    pub receipts: Vec<Receipt>,
}
