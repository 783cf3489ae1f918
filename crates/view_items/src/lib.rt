//! What is kept of the items of a live package in place of their contents: of a package of many bytes one content is in
//! memory at a time.
#![tactic(auto)]

pub mod finding;
pub mod parts;
