//! Stores that are handed in are looked at and judged, the live ones are brought to the second
//! version, and all are shared out: what an opening does before there is a world.
#![tactic(auto)]

pub mod bringing;
pub mod judging;
mod remembering;
pub mod sharing;
pub mod surveying;
mod waiting;
pub mod watching;
