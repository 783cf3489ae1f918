//! The converse of the opening: views of a register's stores stand for it, whatever strays are
//! beside them. Each law is the contract of a function that does nothing.
#![tactic(auto)]

pub mod laws;
