//! Receipts are kept for good: whatever comes later, none is lost or changed, and a request that
//! got one gets it again. Each law is the contract of a function that does nothing.
#![tactic(auto)]

pub mod laws;
