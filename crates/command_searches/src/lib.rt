//! The package or the item that a word names in a world by its first digits, and what comes nearest
//! where it names none.
#![tactic(auto)]

pub mod hints;
pub mod searches;
