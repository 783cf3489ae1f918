//! A store that may be any database, glanced at: whose it is and what its receipts claim, and no more.
#![tactic(auto)]

pub mod glance;
pub mod laws;
