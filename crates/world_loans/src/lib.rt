//! What is due of a split or a merge, why neither is, and how a request ends that was not carried out.
#![tactic(auto)]

pub mod loans;
