//! Files that are in memory, and a blank store over two of them.
#![tactic(auto)]

mod blank;
mod disk;
mod opening;

pub use blank::open_blank;
pub use disk::MemoryFile;
pub use opening::blank_in_files;
