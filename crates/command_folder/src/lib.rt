//! A folder of packages, opened as the world that its stores stand for, and how a call of the program on a folder ends.
#![tactic(auto)]

pub mod bodies;
mod choosing;
pub mod endings;
pub mod folders;
mod numbering;
pub mod printing;
pub mod replies;
pub mod watching;
