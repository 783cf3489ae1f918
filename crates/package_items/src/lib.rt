//! Whether tiles, media, attribute rows, identities and mapping rows of a store that may be damaged
//! are in their ranges and belong together, and what they then say.
#![tactic(auto)]

pub mod laws;
mod next_rows;
pub mod ranges;
mod sorted;
pub mod tied;
pub mod unique;
pub mod user_tables;
