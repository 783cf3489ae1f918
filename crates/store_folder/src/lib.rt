//! Packages in a folder of the file system, a file each: their names, a shelf that makes their
//! stores, and the opening of all of them.
#![tactic(auto)]

mod closing;
pub mod fault;
pub mod founding;
pub mod leftovers;
pub mod listing;
pub mod locking;
pub mod names;
pub mod opening;
pub mod removing;
pub mod shelf;
pub mod start;
