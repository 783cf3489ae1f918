//! The account over receipts: what a line says, where each thing stands, what each package's
//! receipts sum to, which loans are open, and whether a world is balanced. It stands on values
//! alone and knows no store.
#![tactic(auto)]

pub mod accounting;
pub mod accounts;
pub mod agreeing;
pub mod entering;
pub mod entries;
pub mod fitting;
pub mod flows;
pub mod forms;
pub mod laws;
pub mod loans;
pub mod moving;
pub mod newness;
pub mod numbering;
pub mod places;
mod same;
pub mod soundness;
pub mod things;
