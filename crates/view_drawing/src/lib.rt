//! The map of a register as a file of its own: all zooms nested, names of the first, marks, and a legend (SVG).
//! Functions of values, with no world and no reader.
#![tactic(auto)]

pub mod drawings;
mod legends;
mod marks;
mod names;
mod sheets;
mod style;
mod words;
