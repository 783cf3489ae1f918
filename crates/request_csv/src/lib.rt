//! Request lists as CSV (RFC 4180, as the crate `csv` reads it): which text is a list of which requests.
#![tactic(auto)]

pub mod causes;
mod columns;
mod contents;
mod digits;
pub mod fields;
pub mod forms;
pub mod list_laws;
pub mod lists;
mod loans;
pub mod readers;
mod records;
mod requests;
pub mod sources;
