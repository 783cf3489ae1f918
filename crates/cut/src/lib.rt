//! What a split takes out of a package: what lies in the rectangle, and what its links bring along.
#![tactic(auto)]

mod gathering;
mod group;
pub mod laws;
pub mod select;
mod starting;
