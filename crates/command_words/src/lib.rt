//! What the words of a command line say, and how a command ends.
#![tactic(auto)]

pub mod arguments;
pub mod desk_lines;
pub mod progress;
pub mod statuses;
