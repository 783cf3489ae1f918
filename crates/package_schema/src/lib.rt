//! What a store that may be any database says of itself, before anything of it is trusted. It is only read.
#![tactic(auto)]

pub mod claims;
pub mod first_frames;
mod fixed_rows;
pub mod form;
mod frame_rows;
pub mod frames;
pub mod heads;
mod named_forms;
mod own_forms;
mod placing;
pub mod rows_alone;
pub mod versions;
