//! Which sheets lie in a rectangle: the rules of a frame, the ground of a tile, and what is inside.
//! OGC GeoPackage 1.3, 2.2.6 and 2.2.7; whole thousandths and the rules of a good frame are
//! profile.
#![tactic(auto)]

pub mod axis;
pub mod check;
pub mod ground;
pub mod levels;
pub mod reach;
pub mod spans;
