//! A package as a set of identified items and links: nothing above this crate knows a local number.
#![tactic(auto)]

pub mod additions;
pub mod changes;
pub mod dating;
pub mod fitting;
pub mod kinds;
pub mod laws;
pub mod look_ups;
pub mod one_by_one;
pub mod reach;
mod row_contents;
pub mod selection;
pub mod stored_texts;
pub mod told;
pub mod whole;
