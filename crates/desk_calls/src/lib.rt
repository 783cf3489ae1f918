//! What the bytes of a connection ask of the desk: one request of HTTP/1.0 or 1.1 (RFC 9112), by
//! the checks in their order. No world, no store.
#![tactic(auto)]

pub mod bodies;
pub mod call_laws;
pub mod calls;
pub mod heads;
mod hosts;
mod judging;
pub mod lengths;
mod origins;
pub mod reading;
mod routes;
pub mod source;
