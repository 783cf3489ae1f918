//! A search for the one UUID that begins with a word, over UUIDs that come one after the other.
ghost use Rattle.std.specs.Prelude.{◌≡◌, ◌≤◌, ◌∷◌, ◌++◌, [], ℕ, List, map, length};
ghost use Rattle.sheet_types.specs.declared.command.Item.{Item as ModelItem};
ghost use Rattle.command_verbs.specs.declared.names.PackageEntry.{PackageEntry as ListedPackage};
ghost use Rattle.command_names.specs.Searching.{IsFound, found_with, is_nearer, named_too, shared, shared_by};

use command_verbs::names::PackageEntry;
use sheet_types::command::Item;
use uuid::Uuid;

/// What was found among the UUIDs so far.
#[derive(Clone, Copy, Debug, PartialEq, Eq)]
pub enum Found {
    /// This one alone begins with the word.
    One(Uuid),
    /// These two do, the first two that came.
    Two(Uuid, Uuid),
    /// None does. This one shares the most characters with the word, the first of those; or none shares any.
    Nearest(Option<Uuid>),
}

/// What is found before any has come.
pub fn nothing() -> Found
    ensures { (word : List ℕ) → IsFound word [] result }
{
    Found::Nearest(None)
}

/// How many first characters of a word a text has, where capitals of the word count as small letters.
fn shared_length(word: &[u8], text: &[u8]) -> usize
    ensures count { result ≡ shared word.now text.now }
    ensures most { result ≤ length word.now }
{
    let [digit, digits @ ..] = word else {
        return 0;
    };
    let [byte, bytes @ ..] = text else {
        return 0;
    };
    if digit.to_ascii_lowercase() == *byte {
        shared_length(digits, bytes) + 1
    } else {
        0
    }
}

/// How many of them the text of a UUID has.
fn shared_by(word: &str, id: Uuid) -> usize
    ensures { result ≡ shared_by word.now id }
{
    let mut buffer = Uuid::encode_buffer();
    let text: &str = id.hyphenated().encode_lower(&mut buffer);
    shared_length(word.as_bytes(), text.as_bytes())
}

/// One more that begins with the word.
fn named_too(found: Found, id: Uuid) -> Found
    ensures { result ≡ named_too found id }
{
    match found {
        Found::Nearest(_) => Found::One(id),
        Found::One(first) => Found::Two(first, id),
        Found::Two(first, second) => Found::Two(first, second),
    }
}

/// Whether a UUID comes nearer to a word than any before.
fn is_nearer(word: &str, found: &Found, id: Uuid) -> bool
    ensures { result ≡ is_nearer word.now found.now id }
{
    match found {
        Found::Nearest(Some(nearest)) => shared_by(word, *nearest) < shared_by(word, id),
        Found::Nearest(None) => 0 < shared_by(word, id),
        Found::One(_) | Found::Two(_, _) => false,
    }
}

/// What is found with one more, by the numbers of characters.
fn found_next(word: &str, found: Found, id: Uuid) -> Found
    ensures { result ≡ found_with word.now found id }
{
    if shared_by(word, id) == word.len() {
        named_too(found, id)
    } else if is_nearer(word, &found, id) {
        Found::Nearest(Some(id))
    } else {
        found
    }
}

/// What is found with one more UUID.
pub fn found_with(word: &str, found: Found, id: Uuid) -> Found
    ensures { (before : List (List ℕ)) → IsFound word.now before found
        → IsFound word.now (before ++ (id ∷ [])) result }
{
    found_next(word, found, id)
}

/// What is found with the identities of more items.
pub fn found_among(word: &str, found: Found, items: &[Item]) -> Found
    ensures { (before : List (List ℕ)) → IsFound word.now before found
        → IsFound word.now (before ++ map (λ (i : ModelItem). i.identity) items.now) result }
{
    let mut next = found;
    for item in items {
        next = found_with(word, next, item.identity);
    }
    next
}

/// What is found with the UUIDs of more packages.
pub fn found_named(word: &str, found: Found, packages: &[PackageEntry]) -> Found
    ensures { (before : List (List ℕ)) → IsFound word.now before found
        → IsFound word.now (before ++ map (λ (p : ListedPackage). p.uuid) packages.now) result }
{
    let mut next = found;
    for entry in packages {
        next = found_with(word, next, entry.uuid);
    }
    next
}
