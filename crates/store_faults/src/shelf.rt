//! Why a shelf has no store.
use std::fmt;
use thiserror::Error;

/// Why a shelf has no store.
#[derive(Clone, Copy, PartialEq, Eq, Debug, Error)]
pub enum ShelfFault {
    /// A growth was refused.
    #[error("OutOfMemory")]
    OutOfMemory,
    /// The shelf itself failed.
    #[error("StoreFault")]
    StoreFault,
}
