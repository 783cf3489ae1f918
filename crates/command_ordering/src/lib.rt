//! Verbs over a folder whose words name a package or an item by its first digits, and what is told where they name
//! none; an item that is dropped, a tree of tiles, a loan of what covers a box.
#![tactic(auto)]

mod areas;
pub mod boxes;
pub mod dropping;
pub mod naming;
pub mod ordering;
pub mod orders;
pub mod putting;
mod telling;
