//! The way of the item that a word names.
ghost use Rattle.std.specs.Prelude.{IfOk};
ghost use Rattle.view_searches.specs.Ways.{IsNamedWay};

use crate::searches::found_ever;
use command_names::searching::Found;
use sheet_types::receipt::Receipt;
use std::alloc::{AllocError, Global};
use view_json::forms::{Form, told_way};

/// What is found for a word, and the way of the item that it names.
#[derive(Drop)]
pub struct NamedWay {
    pub found: Found,
    pub text: Option<String>,
}

/// What is found for a word among all items that receipts added; and the way of the item in this
/// form, where it names one.
///
/// # Errors
///
/// Want of memory.
pub fn named_way(
    alloc: Global,
    form: Form,
    receipts: &[Receipt],
    word: &str,
) -> Result<NamedWay, AllocError>
    ensures { IfOk result (IsNamedWay form receipts.now word.now) }
{
    let found = found_ever(word, receipts);
    match found {
        Found::One(id) => {
            let text = told_way(alloc, form, receipts, id)?;
            Ok(NamedWay { found, text })
        }
        Found::Two(_, _) | Found::Nearest(_) => Ok(NamedWay { found, text: None }),
    }
}
