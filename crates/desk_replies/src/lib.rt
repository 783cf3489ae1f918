//! Every response of the desk, to the byte (RFC 9112, RFC 8259): functions of values, with no world and no reader.
#![tactic(auto)]

pub mod bodies;
pub mod fixed;
pub mod packages;
pub mod replies;
pub mod responses;
