//! Words that name a package or an item by its first digits.
use command_names::hints::{Hint, hint_line};
use command_names::reading::can_begin;
use sheet_types::reading::read_uuid;

/// Says on standard error what comes nearest to a word that names none.
pub fn print_hint(rt: &HostRuntime, hint: &Option<Hint<'_>>) {
    let Some(hint) = hint else {
        return;
    };
    if let Ok(line) = hint_line(rt.alloc(), hint) {
        let _printed = eprintln!(rt; "{line}");
    }
}

/// Whether a word may name by its first digits: it is no whole UUID, and can begin one.
pub fn is_short(word: &str) -> bool {
    can_begin(word) && read_uuid(word).is_none()
}
