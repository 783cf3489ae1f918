//! Laws of lists of requests that change one package, each the contract of a function that does nothing.
#![tactic(auto)]

pub mod laws;
