//! What a store that reads as a package of a register has of all that an opening asks of a store.
//! Each law is the contract of a function that does nothing.
#![tactic(auto)]

pub mod laws;
