//! What a command does over all packages of a folder that no desk serves, or as its desk.
#![tactic(auto)]

pub mod working;
