//! A page that tells the register: of packages, things, receipts and names, one file of HTML 5.
//! Functions of values, with no world and no reader.
#![tactic(auto)]

pub mod accounts;
pub mod digests;
pub mod drawing;
pub mod escaping;
pub mod holders;
pub mod holdings;
pub mod ledgers;
pub mod levels;
pub mod lists;
pub mod pages;
pub mod patterns;
pub mod pieces;
pub mod registers;
pub mod style;
pub mod words;
