//! The SQL that makes a package into a GeoPackage for other programs, a statement a line: its
//! beginning, the rows of an item, the row of a link, its end.
#![tactic(auto)]

pub mod fixed_rows;
pub mod laws;
pub mod lines;
pub mod literals;
pub mod matrices;
pub mod numbers;
pub mod opening;
pub mod points;
pub mod schema;
pub mod styles;
