//! Request lists as texts, and streams that fail, for the tests of several crates. The program uses none of it.
#![tactic(auto)]

mod lists;
mod streams;

pub use crate::lists::{
    FIRST_TILE, HEADER, MANIFEST_OF_THE_FIRST, NO_REQUEST, SEVENTEEN, list, list_ended,
};
pub use crate::streams::{Failing, Narrow};
