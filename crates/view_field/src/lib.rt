//! The QGIS project of an export, of a world and of a folder.
#![tactic(auto)]

pub mod projects;
