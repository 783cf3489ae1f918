//! Laws of what is asked of a file before its requests are made: it is enough.
#![tactic(auto)]

pub mod laws;
