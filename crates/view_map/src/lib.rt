//! A map of who holds which sheets: of a frame, a zoom and what each package has there, an SVG
//! picture (SVG 1.1, UTF-8). Functions of values, with no world and no reader.
#![tactic(auto)]

pub mod colours;
pub mod holders;
pub mod laws;
pub mod layers;
pub mod layout;
pub mod maps;
pub mod pieces;
pub mod places;
pub mod sheets;
pub mod zooms;
