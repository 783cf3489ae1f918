//! The tiles of a tree of files `ZOOM/COLUMN/ROW.png` are added to a package, each by a request of its own.
#![tactic(auto)]

pub mod adding;
