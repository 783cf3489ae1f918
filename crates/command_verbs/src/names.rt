//! Words for packages: a whole UUID, or its first digits.
ghost use Rattle.std.specs.Prelude.{◌≡◌, ◌∷◌, [], IfSome, IfNone, MatchResult, Ok, Err, map, filter};
ghost use Rattle.std.specs.Char.{to_ascii_lowercase};
ghost use Rattle.sheet_types.specs.Texts.{uuid_text};
ghost use Rattle.command_verbs.specs.Names.{archive_of, begins, has_name, of_those, sight, the_one};

use uuid::Uuid;

/// What is listed of a live package: its parent, where it is a loan, how many loans it is below the
/// archive, and the number of the last receipt that names it.
#[derive(Clone, Copy, PartialEq, Eq)]
pub struct PackageEntry {
    pub uuid: Uuid,
    pub parent: Option<Uuid>,
    pub depth: u64,
    pub ticket: u64,
}

/// Why a word names no package.
#[derive(Clone, Copy, Debug, PartialEq, Eq)]
pub enum NameFault {
    /// It has fewer than four characters.
    Short,
    /// The UUID of no live package begins with it.
    Unknown,
    /// Those of these two do, the first two in their order.
    Two(Uuid, Uuid),
}

/// Whether a text begins with these bytes, whose capitals count as small letters.
fn begins(word: &[u8], text: &[u8]) -> bool
    ensures { result ≡ begins word.now text.now }
{
    let [digit, digits @ ..] = word else {
        return true;
    };
    let [byte, bytes @ ..] = text else {
        return false;
    };
    digit.to_ascii_lowercase() == *byte && begins(digits, bytes)
}

/// Whether the text of a UUID begins with a word.
pub fn has_beginning(word: &str, id: Uuid) -> bool
    ensures { result ≡ begins word.now (uuid_text id) }
{
    let mut buffer = Uuid::encode_buffer();
    let text: &str = id.hyphenated().encode_lower(&mut buffer);
    begins(word.as_bytes(), text.as_bytes())
}

/// The first package that a word may name, and those listed behind it.
fn next_named<'e>(
    word: &str,
    entries: &'e [PackageEntry],
) -> Option<(PackageEntry, &'e [PackageEntry])>
    ensures some { IfSome result (λ it. filter (has_name word.now) (map sight entries.now) ≡ sight it.0
        ∷ filter (has_name word.now) (map sight it.1.now)) }
    ensures none { IfNone result (filter (has_name word.now) (map sight entries.now) ≡ []) }
{
    let [entry, rest @ ..] = entries else {
        return None;
    };
    if has_beginning(word, entry.uuid) {
        return Some((*entry, rest));
    }
    next_named(word, rest)
}

/// The one package that a word may name.
fn only_named(word: &str, entries: &[PackageEntry]) -> Result<PackageEntry, NameFault>
    ensures { MatchResult result
        (λ entry. of_those (filter (has_name word.now) (map sight entries.now)) ≡ Ok (sight entry))
        (λ fault. of_those (filter (has_name word.now) (map sight entries.now)) ≡ Err fault) }
{
    let Some((entry, rest)) = next_named(word, entries) else {
        return Err(NameFault::Unknown);
    };
    match next_named(word, rest) {
        Some((other, _)) => Err(NameFault::Two(entry.uuid, other.uuid)),
        None => Ok(entry),
    }
}

/// The live package that a word names: its UUID, or a beginning of it of at least four characters that no other has.
pub fn find_package(entries: &[PackageEntry], word: &str) -> Result<PackageEntry, NameFault>
    ensures { MatchResult result
        (λ entry. the_one (map sight entries.now) word.now ≡ Ok (sight entry))
        (λ fault. the_one (map sight entries.now) word.now ≡ Err fault) }
{
    if word.len() < 4 {
        return Err(NameFault::Short);
    }
    only_named(word, entries)
}

/// The package that is no loan.
pub fn find_archive(entries: &[PackageEntry]) -> Result<PackageEntry, NameFault>
    ensures { MatchResult result
        (λ entry. archive_of (map sight entries.now) ≡ Ok (sight entry))
        (λ fault. archive_of (map sight entries.now) ≡ Err fault) }
{
    let [entry, rest @ ..] = entries else {
        return Err(NameFault::Unknown);
    };
    match entry.parent {
        None => Ok(*entry),
        Some(_) => find_archive(rest),
    }
}
