//! The opening of a world: the stores that are handed in come to a world, or to the first of the
//! nine faults whose condition holds.
#![tactic(auto)]

pub mod recovering;
