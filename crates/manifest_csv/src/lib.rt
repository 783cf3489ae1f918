//! Reports and manifests as CSV (RFC 4180, as the crate `csv` writes it), and request lists carried out by a world.
#![tactic(auto)]

pub mod by_items;
pub mod importing;
pub mod manifests;
pub mod package_manifests;
pub mod progress;
pub mod questions;
pub mod reports;
pub mod sending;
