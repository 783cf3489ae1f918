//! The way of the item that a word names by its first digits, as receipts tell it. The item may be deleted since.
#![tactic(auto)]

pub mod searches;
pub mod ways;
