//! A store that may be damaged, looked at once: what the opening of a world sees of it.
#![tactic(auto)]

mod forms;
mod held;
pub mod laws;
pub mod said;
pub mod survey;
mod ties;
