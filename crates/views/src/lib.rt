//! What the program `sheetdesk` shows of a folder of packages: subcommands that read and never
//! write. Tables, receipts and ways for people who look; a manifest and an audit; a package as SQL;
//! a drawing of who holds which sheets.
#![tactic(auto)]

pub mod auditing;
mod by_items;
pub mod contents;
pub mod endings;
pub mod excerpts;
pub mod explaining;
pub mod exporting;
mod gathering;
pub mod logging;
pub mod looking;
pub mod manifest;
pub mod maps;
pub mod printing;
pub mod receipts;
pub mod showing;
pub mod status;
pub mod writing;
pub mod zooms;
