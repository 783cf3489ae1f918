//! What a request comes to, decided before anything is written: its reply, or the change, split or merge that is due.
#![tactic(auto)]

pub mod deciding;
mod deciding_merges;
mod deciding_splits;
mod loan_receipts;
