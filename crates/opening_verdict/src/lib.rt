//! What an opening comes to: from what was seen of each store, the first of the nine faults whose
//! condition holds, or which stores are live and what a world keeps of their packages. It stands on
//! values alone and knows no store.
#![tactic(auto)]

pub mod accounting;
pub mod arranging;
pub mod checking;
pub mod holdings;
pub mod judging;
pub mod seen;
pub mod tallying;
pub mod tickets;
pub mod verdict;
