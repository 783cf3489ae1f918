//! What moves from one package to another: items by their identities and links by their ends,
//! content and all. No local number.
#![tactic(auto)]

pub mod pages;
mod putting;
mod refusals;
pub mod taking;
