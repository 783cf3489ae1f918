//! Verbs over a folder that no desk serves, a new archive, a folder made tidy, and a rehearsal in memory.
#![tactic(auto)]

mod boxes;
mod dropping;
mod founding;
mod ordering;
pub mod rehearsing;
mod tidying;
mod trees;
pub mod verbs;
