//! A folder that stays open from one command of a session to the next.
#![tactic(auto)]

pub mod keeping;
