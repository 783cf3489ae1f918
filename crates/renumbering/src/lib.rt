//! Local keys that a package has free, and a renumbering of keys that came from another package.
//! Keys of a kind are the whole numbers from 1 to 1,000,000 (profile).
#![tactic(auto)]

pub mod free;
pub mod renumber;
