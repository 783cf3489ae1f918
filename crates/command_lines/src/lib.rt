//! The lines of what takes several requests: an item that is dropped, a tree of tiles, a loan of what covers a box.
#![tactic(auto)]

pub mod boxes;
pub mod drops;
pub mod trees;
