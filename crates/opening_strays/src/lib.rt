//! Which stores beside a world, its strays, the register can do without.
#![tactic(auto)]

pub mod spent;
