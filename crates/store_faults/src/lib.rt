//! Why a store cannot be had.
#![tactic(auto)]

pub mod shelf;
