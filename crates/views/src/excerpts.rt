//! Which receipts are asked for, by the words as they were typed.
ghost use Rattle.std.specs.Prelude.{ℕ, IfNone, IfSome, Option};
ghost use Rattle.command_verbs.specs.Verbs.{text_of};
ghost use Rattle.view_text.specs.declared.ledgers.Excerpt.{Excerpt};
ghost use Rattle.views.specs.Excerpts.{AsksExcerpt, AsksFrom, AsksLast, IsCount};

use sheet_types::reading::read_number;
use view_text::ledgers::Excerpt;

/// The words for a part of the ledger.
#[derive(Clone, Copy)]
pub struct LogWords<'t> {
    /// A word for a package.
    pub package: Option<&'t str>,
    /// The least number of a receipt.
    pub from: Option<&'t str>,
    /// At most how many receipts, the last ones.
    pub last: Option<&'t str>,
}

/// The count of a text in plain decimal.
fn read_count(text: &str) -> Option<u64>
    ensures some { IfSome result (IsCount text.now) }
    ensures none { IfNone result ((count : ℕ) → ¬ IsCount text.now count) }
{
    let number = read_number(text)?;
    if number < 0 {
        return None;
    }
    Some(number as u64)
}

/// The least number that a word asks for.
fn asked_from(word: Option<&str>) -> Option<u64>
    ensures some { IfSome result (AsksFrom (text_of word.entry)) }
    ensures none { IfNone result ((from : ℕ) → ¬ AsksFrom (text_of word.entry) from) }
{
    match word {
        Some(text) => read_count(text),
        None => Some(0),
    }
}

/// How many receipts a word asks for.
fn asked_last(word: Option<&str>) -> Option<Option<usize>>
    ensures some { IfSome result (AsksLast (text_of word.entry)) }
    ensures none { IfNone result ((last : Option ℕ) → ¬ AsksLast (text_of word.entry) last) }
{
    match word {
        Some(text) => match read_count(text) {
            Some(count) => Some(Some(count as usize)),
            None => None,
        },
        None => Some(None),
    }
}

/// The receipts that words ask for; `None` where a number of theirs is none.
pub fn asked_excerpt<'t>(words: &LogWords<'t>) -> Option<Excerpt<'t>>
    ensures some { IfSome result (AsksExcerpt words.now) }
    ensures none { IfNone result ((excerpt : Excerpt) → ¬ AsksExcerpt words.now excerpt) }
{
    let from = asked_from(words.from)?;
    let last = asked_last(words.last)?;
    Some(Excerpt {
        package: words.package,
        from,
        last,
    })
}
