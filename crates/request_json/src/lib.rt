//! Requests as JSON (RFC 8259, as the crate `serde_json` reads it): one object a request.
#![tactic(auto)]

mod contents;
mod members;
pub mod request_laws;
pub mod requests;
