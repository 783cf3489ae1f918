//! What the stores of live packages tell of loans and receipts. They are only read.
#![tactic(auto)]

mod asking;
pub mod ledgers;
pub mod loans;
pub mod moments;
