//! What an edited file changes is shown, or brought home into a package: over a world, and over a folder.
#![tactic(auto)]

pub mod bringing;
pub mod folders;
pub mod telling;
