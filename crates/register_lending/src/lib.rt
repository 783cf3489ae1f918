//! What a split and a merge make of the stores of one package and another, each store in one transaction.
#![tactic(auto)]

pub mod lending;
mod moving;
pub mod returning;
pub mod turn_fault;
