//! The values of the lending register: frames, requests, receipts, refusals; its texts; and, in
//! `specs/`, the model that every contract above is held against.
#![tactic(auto)]

pub mod checks;
pub mod collections;
pub mod command;
pub mod error;
pub mod fingerprints;
pub mod frame;
pub mod lines;
pub mod moments;
pub mod reading;
pub mod receipt;
pub mod refusal;
pub mod sorting;
pub mod words;
