//! The custody page of one loan: what was lent, who has it now, what is due home, and places to
//! sign. Functions of values, with no world and no reader.
#![tactic(auto)]

pub mod lent;
pub mod pages;
pub mod pieces;
pub mod receipts;
pub mod verdicts;
mod words;
