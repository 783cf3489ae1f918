//! What a person is told beside a name that is none.
ghost use Rattle.std.specs.Prelude.{◌≡◌, IfOk, string_bytes};
ghost use Rattle.command_names.specs.Hints.{hint_line, whose_word};

use std::alloc::{AllocError, Global};
use uuid::Uuid;

/// What a word is to name.
#[derive(Clone, Copy, Debug, PartialEq, Eq)]
pub enum Whose {
    /// A live package.
    Package,
    /// An item that a live package holds.
    Item,
}

/// A word that names none, and what comes nearest.
#[derive(Clone, Copy)]
pub struct Hint<'t> {
    pub whose: Whose,
    pub word: &'t str,
    pub nearest: Uuid,
}

/// What it was to name, in a word.
fn whose_word(whose: Whose) -> &'static str
    ensures { result.now ≡ whose_word whose }
{
    match whose {
        Whose::Package => "package",
        Whose::Item => "item",
    }
}

/// The text that names what comes nearest, without the end of a line.
///
/// # Errors
///
/// Want of memory.
pub fn hint_line(alloc: Global, hint: &Hint<'_>) -> Result<String, AllocError>
    ensures { IfOk result (λ text. string_bytes text ≡ hint_line hint.now) }
{
    let whose = whose_word(hint.whose);
    let word = hint.word;
    let nearest = hint.nearest;
    format!(in alloc; "no {whose} begins with {word}; do you mean {nearest}?")
}
