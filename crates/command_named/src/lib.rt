//! Looks over a folder whose words name a package or an item by its first digits, and what is told
//! where they name none.
#![tactic(auto)]

pub mod items;
pub mod looking;
pub mod packages;
mod telling;
pub mod ways;
