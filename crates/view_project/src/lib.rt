//! A QGIS project for an export that lies beside it: layers, forms and relations, as a text (QGS of QGIS 3).
#![tactic(auto)]

pub mod layers;
mod parts;
pub mod projects;
mod styles;
