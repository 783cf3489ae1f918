//! The SQL by which stock `sqlite3` lists what a GeoPackage holds, of an export and of another program's file.
#![tactic(auto)]

pub mod laws;
pub mod listing;
pub mod naming;
mod parts;
pub mod stock;
