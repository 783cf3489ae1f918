//! What an edited file changes in a package of a world: the requests, or why there are none.
#![tactic(auto)]

pub mod asking;
pub mod freedom;
mod identities;
mod limits;
