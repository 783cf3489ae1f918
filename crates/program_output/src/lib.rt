//! What a command of the program reads and where it writes, how its ending is told, and the clock.
#![tactic(auto)]

pub mod clock;
pub mod desk_files;
pub mod notes;
pub mod options;
pub mod outputs;
pub mod printing;
mod settling;
pub mod streams;
