//! A folder of packages made tidy: what the register can do without is taken out of it.
#![tactic(auto)]

pub mod lines;
pub mod register;
pub mod tidying;
pub mod yard;
