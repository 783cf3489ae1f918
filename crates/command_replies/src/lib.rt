//! What a verb for people prints: its request as JSON, and what came of it in plain words.
#![tactic(auto)]

pub mod receipts;
pub mod requests;
