//! What the tests of several crates share. The program uses none of it.
#![tactic(auto)]

mod changes;
mod checked;
mod contents;
mod packages;
mod receipts;
mod requests;
mod rows;
mod texts;
mod values;

pub use crate::changes::{Change, altered, at_rest, committed, in_memory};
pub use crate::checked::Checked;
pub use crate::contents::{medium_content, row_content, tile_content};
pub use crate::packages::{
    WITH_A_LINK, can_be_made, empty_package, fill_with_a_link, is_good, new_package, new_tables,
};
pub use crate::receipts::{counts, moved_medium, receipt_of, sums};
pub use crate::requests::{Asks, BEGUN, Step, archive, item, question, told};
pub use crate::rows::{Row, Rows, Tables};
pub use crate::texts::{answered, identities_text, links_text, number_of};
pub use crate::values::{AT, FRAME, NOTHING, ONE_MEDIUM, text};
