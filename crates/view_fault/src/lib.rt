//! The page of a folder that does not open. Functions of values, with no folder and no reader.
#![tactic(auto)]

pub mod pages;
mod words;
