//! A package that comes into being: its tables, the rows that are the same in each package but for
//! its frame, and its head.
#![tactic(auto)]

pub mod create;
pub mod creation;
mod fixed_rows;
mod insertions;
mod levels;
pub mod package;
pub mod schema;
pub mod unmade;
