//! What is done in a world with the item or the package that a word names by its first digits: the
//! item is dropped, the tiles of a tree come into the package.
#![tactic(auto)]

pub mod drops;
pub mod naming;
pub mod trees;
