//! What the program `sheetdesk` does with a folder of packages: the subcommands that may change it, each over its
//! words, the folder, a reader and a writer.
#![tactic(auto)]

pub mod applying;
pub mod importing;
pub mod init;
pub mod registers;
mod serving;
pub mod streaming;
pub mod tidying;
pub mod working;
