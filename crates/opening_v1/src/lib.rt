//! A store of the first version that may be damaged, looked at once: what the opening of a world
//! sees of it. Its rows are copied into a package of the second version in memory, which is then
//! looked at as any other.
#![tactic(auto)]

pub mod either;
mod forms;
mod numbers;
mod package_rows;
mod said;
pub mod survey;
