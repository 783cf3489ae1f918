//! What people ask for by words that need more than one request: their commands, in order, and the
//! places of a tree of tiles.
#![tactic(auto)]

pub mod drops;
pub mod places;
pub mod requests;
