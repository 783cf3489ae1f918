//! What a world is asked before anything is written: receipts, identities, one package, and what a package would hold.
#![tactic(auto)]

pub mod asking;
pub mod asking_one;
pub mod judging;
pub mod recalling;
pub mod receipts;
pub mod sums;
pub mod texts;
pub mod too_many;
