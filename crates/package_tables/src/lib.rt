//! One package's tables as lists of typed rows: nothing above this crate speaks SQL.
#![tactic(auto)]

pub mod attributes;
pub mod fault;
pub mod fixed;
pub mod from_row;
pub mod head;
pub mod identities;
pub mod mappings;
pub mod media;
pub mod moved;
pub(crate) mod numbers;
pub mod receipts;
pub mod rows;
pub mod tiles;
