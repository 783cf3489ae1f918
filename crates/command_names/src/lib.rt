//! Which package or item a word names by its first digits, and which comes nearest where it names none.
#![tactic(auto)]

pub mod hints;
pub mod reading;
pub mod searching;
