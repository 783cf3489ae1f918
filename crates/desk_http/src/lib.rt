//! The desk: one request of HTTP/1.0 or 1.1 (RFC 9112) from a reader, answered over a world; and connections of this
//! machine, served one after the other.
#![tactic(auto)]

mod answering;
pub mod clerks;
pub mod commands;
pub mod connections;
mod deadline;
mod fronts;
pub mod listening;
mod packages;
pub mod serving;
pub mod serving_laws;
pub mod telling;
