//! What a world tells people who look: a table of its packages, the way of one item, and a kept receipt. It is only
//! read.
#![tactic(auto)]

pub mod asking;
pub mod ledgers;
pub mod packages;
pub mod receipts;
pub mod usable;
pub mod ways;
