//! What the words of a command line say before any folder is opened: which kind of command they ask for, what goes by a
//! name, which files there are, and what they leave out, which is new or of the clock.
#![tactic(auto)]

pub mod filling;
pub mod hints;
pub mod kinds;
pub mod names;
pub mod parsing;
pub mod tile_files;
mod tile_names;
