//! What standard error is told of a list, beside how its command ended: where its fault is, and
//! which of its records were refused.
#![tactic(auto)]

pub mod faults;
pub mod refusals;
