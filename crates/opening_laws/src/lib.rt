//! Laws of the opening of a register's stores: a world at rest is always opened again, and whatever
//! a crash leaves of it comes to the world before or the world after. Each law is the contract of a
//! function that does nothing.
#![tactic(auto)]

pub mod laws;
