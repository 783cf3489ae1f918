//! The judge of balanced worlds: whether the ledger of a world is sound, and the custody, the sums,
//! the loans and the places that its receipts tell are those of what is held, judged over what is
//! seen of its packages. It stands on values alone and knows no store.
#![tactic(auto)]

pub mod accounts;
pub mod holders;
pub mod holding;
pub mod homes;
pub mod judging;
pub mod laws;
pub mod loans;
pub mod merges;
pub mod sights;
pub mod splits;
pub mod sums;
