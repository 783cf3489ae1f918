//! The clerk of a desk over a folder, and what the words of a command ask of it.
#![tactic(auto)]

mod clerk_input;
mod clerk_pages;
mod clerk_telling;
mod clerk_words;
pub mod serving;
pub mod wishes;
