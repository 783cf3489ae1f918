//! Commands over a folder that a desk serves: the desk is asked, and what it answers is printed.
#![tactic(auto)]

pub mod asking;
mod desk_drops;
mod desk_inputs;
mod desk_lines;
mod desk_lists;
mod desk_trees;
pub mod desks;
mod row_texts;
