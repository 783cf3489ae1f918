//! What the program `sheetdesk` does with the words of its command line: it reads them, carries out
//! what they ask for over a reader and a writer, and ends with a status and a line.
#![tactic(auto)]

pub mod rehearse;
pub mod serving;
