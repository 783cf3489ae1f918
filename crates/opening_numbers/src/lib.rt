//! The number of the receipt that names what a fault is of: of the open split that lent a package,
//! or of the addition of an item.
#![tactic(auto)]

pub mod numbers;
