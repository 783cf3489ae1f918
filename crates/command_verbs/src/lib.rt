//! What the words of a verb say: which sheets, which package, of which type; and the command that they make.
#![tactic(auto)]

pub mod areas;
pub mod faults;
pub mod items;
pub mod media;
pub mod names;
pub mod points;
pub mod verbs;
