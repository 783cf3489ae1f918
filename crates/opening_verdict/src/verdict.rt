//! What stores without fault come to.
use opening_faults::sights::StoreHead;
use sheet_types::receipt::Sums;

/// What a world keeps of a live package.
#[derive(Clone, Copy)]
pub struct Kept {
    /// Whose its store is.
    pub head: StoreHead,
    /// How much it holds.
    pub sums: Sums,
    /// The number of the last receipt that names it, 0 where there is none.
    pub ticket: u64,
}

/// What stores without fault come to.
#[derive(Drop)]
pub struct Verdict {
    /// Place by place what is kept of the store's package; none of a stray.
    pub kept: Vec<Option<Kept>>,
    /// How many receipts there are.
    pub count: u64,
}
