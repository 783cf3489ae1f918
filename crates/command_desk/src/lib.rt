//! A command of the command line, asked of a desk: the bytes in which it is asked and answered, and what is made of a
//! world that stays.
#![tactic(auto)]

pub mod carrying;
pub mod changing;
pub mod deeds;
mod frame_texts;
pub mod frames;
pub mod pages;
pub mod words;
