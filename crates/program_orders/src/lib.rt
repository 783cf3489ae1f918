//! The order that the words of a verb give: the verb itself, the box of a loan, and what becomes of the request.
#![tactic(auto)]

pub mod boxes;
pub mod purposes;
pub mod verbs;
