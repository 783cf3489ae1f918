//! The page that tells a register, of a world and of a folder.
#![tactic(auto)]

pub mod contents;
pub mod pages;
pub mod registers;
