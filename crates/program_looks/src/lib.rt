//! Looks at a folder that no desk serves, and what serves an edited file: its list, its project, its way home.
#![tactic(auto)]

pub mod bringing;
pub mod fields;
mod naming;
pub mod reporting;
pub mod showing;
