//! Tests of what holds one package: `package_tables`, `identity_register`, `custody`, `cut`,
//! `store_forms`, `stored_receipts` and `first_version`; and of the example of `sql_meaning`. There
//! is nothing here but tests.
#![tactic(auto)]

#[cfg(test)]
mod asks;
#[cfg(test)]
mod change_tests;
#[cfg(test)]
mod changes;
#[cfg(test)]
mod cuts;
#[cfg(test)]
mod form_tests;
#[cfg(test)]
mod forms;
#[cfg(test)]
mod lines;
#[cfg(test)]
mod note_tests;
#[cfg(test)]
mod reach_tests;
#[cfg(test)]
mod receipt_tests;
#[cfg(test)]
mod select_tests;
#[cfg(test)]
mod steps;
#[cfg(test)]
mod table_tests;
#[cfg(test)]
mod version_tests;
