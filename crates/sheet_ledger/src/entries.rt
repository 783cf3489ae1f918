//! What the lines of receipts say, read back whole.
ghost use Rattle.std.specs.Prelude.{◌≡◌, ℕ, List, true, pos, decimal, ◌∷◌, ◌++◌, codes, option_map};
ghost use Rattle.std.specs.Prelude.{IfSome, IfNone};
ghost use Rattle.std.specs.Fmt.{signed_decimal};
ghost use Rattle.hex.specs.Hex.{encode_lower};
ghost use Rattle.sheet_types.specs.Lines.{entry_from, IsUuid, is_number, is_bytes, is_rect};
ghost use Rattle.sheet_types.specs.Reading.{rect_text};
ghost use Rattle.sheet_types.specs.Texts.{uuid_text, kind_word, mapping_word, mode_word};
ghost use Rattle.sheet_types.specs.World.{is_item_kind};
ghost use Rattle.sheet_types.specs.Step.{source_of, target_of};
ghost use Rattle.sheet_types.specs.Balance.{stands_in};
ghost use Rattle.sheet_ledger.specs.Entries.{entry_said, link_verb, link_said};
ghost use Rattle.sheet_ledger.specs.Slots.{OfUuid, OfKind, OfSize, OfDigest, OfMapping, OfMode, OfNumber, Lacks};
ghost use Rattle.sheet_ledger.specs.Slots.{NoFront, NoPart, NoParts, rect_slots};

use crate::fitting::{fits, fits_digest};
use sheet_types::command::{Mapping, Mode};
use sheet_types::fingerprints::read_fingerprint;
use sheet_types::frame::Rect;
use sheet_types::reading::{read_number, read_stored_uuid};
use sheet_types::receipt::MovedKind;
use sheet_types::words::{read_kind, read_mapping, read_mode};
use uuid::Uuid;

/// What a line says of a command: its identities and numbers, and of an added item its kind, size and digest alone.
#[derive(Clone, Copy, PartialEq, Eq)]
pub enum LineEntry {
    Add {
        package: Uuid,
        identity: Uuid,
        kind: MovedKind,
        size: u64,
        digest: [u8; 32],
    },
    Delete {
        package: Uuid,
        identity: Uuid,
    },
    Link {
        package: Uuid,
        mapping: Mapping,
        base: Uuid,
        other: Uuid,
    },
    Unlink {
        package: Uuid,
        mapping: Mapping,
        base: Uuid,
        other: Uuid,
    },
    Split {
        package: Uuid,
        child: Uuid,
        mode: Mode,
        rect: Rect,
    },
    Merge {
        child: Uuid,
        into: Uuid,
        ticket: i64,
    },
}

impl LineEntry {
    /// The package that what moves comes from; none where it comes from outside.
    pub fn source(&self) -> Option<Uuid>
        ensures { result ≡ source_of (entry_said self.now) }
    {
        match self {
            LineEntry::Add { .. } | LineEntry::Link { .. } => None,
            LineEntry::Delete { package, .. }
            | LineEntry::Unlink { package, .. }
            | LineEntry::Split { package, .. } => Some(*package),
            LineEntry::Merge { child, .. } => Some(*child),
        }
    }

    /// The package that what moves comes to; none where it goes for good.
    pub fn target(&self) -> Option<Uuid>
        ensures { result ≡ target_of (entry_said self.now) }
    {
        match self {
            LineEntry::Delete { .. } | LineEntry::Unlink { .. } => None,
            LineEntry::Add { package, .. } | LineEntry::Link { package, .. } => Some(*package),
            LineEntry::Split { child, .. } => Some(*child),
            LineEntry::Merge { into, .. } => Some(*into),
        }
    }

    /// The package in which the receipt is made.
    pub fn stands_in(&self) -> Uuid
        ensures { result ≡ stands_in (entry_said self.now) }
    {
        match self {
            LineEntry::Add { package, .. }
            | LineEntry::Delete { package, .. }
            | LineEntry::Link { package, .. }
            | LineEntry::Unlink { package, .. }
            | LineEntry::Split { package, .. } => *package,
            LineEntry::Merge { into, .. } => *into,
        }
    }
}

/// The entry whose line this text is; `None` where it is the line of none. It takes no memory.
pub fn read_line(text: &str) -> Option<LineEntry>
    ensures { option_map entry_said result ≡ entry_from text.now }
{
    let Some((verb, rest)) = cut(text) else {
        return None;
    };
    read_verb(verb, rest)
}

// The entry of a verb and of what stands behind it.
fn read_verb(verb: &str, rest: &str) -> Option<LineEntry>
    requires { Lacks 32 verb.now }
    ensures { option_map entry_said result ≡ entry_from (verb.now ++ (32 ∷ rest.now)) }
{
    match verb {
        "add" => read_add(rest),
        "delete" => read_delete(rest),
        "link" => read_link(rest, true),
        "unlink" => read_link(rest, false),
        "split" => read_split(rest),
        "merge" => read_merge(rest),
        _ => None,
    }
}

/// What stands before the first space of a text, or the whole of one that has none. Of a line it is the verb.
pub(crate) fn verb_of(text: &str) -> &str
    ensures { (word rest : List ℕ) → Lacks 32 word → text.now ≡ word ++ (32 ∷ rest) → result.now ≡ word }
{
    match cut(text) {
        Some((verb, _rest)) => verb,
        None => text,
    }
}

// What stands before the first space, and what follows that space.
fn cut<'a>(text: &'a str) -> Option<(&'a str, &'a str)>
    ensures some { IfSome result (λ parts. text.now ≡ parts.0.now ++ (32 ∷ parts.1.now)) }
    ensures lacks { IfSome result (λ parts. Lacks 32 parts.0.now) }
    ensures none { IfNone result (Lacks 32 text.now) }
{
    let Some((front, rest)) = text.split_once(' ') else {
        return None;
    };
    Some((front, rest))
}

// The UUID that the text is.
fn last_uuid(text: &str) -> Option<Uuid>
    ensures some { IfSome result (λ id. text.now ≡ uuid_text id) }
    ensures fit { IfSome result (λ id. IsUuid id) }
    ensures none { IfNone result (NoPart OfUuid text.now) }
{
    let id = read_stored_uuid(text)?;
    fits(id);
    Some(id)
}

// The kind of item before the first space, and what follows that space.
fn next_kind<'a>(text: &'a str) -> Option<(MovedKind, &'a str)>
    ensures some { IfSome result (λ read. text.now ≡ kind_word read.0 ++ (32 ∷ read.1.now)) }
    ensures fit { IfSome result (λ read. is_item_kind read.0 ≡ true) }
    ensures none { IfNone result (NoFront OfKind text.now) }
{
    let Some((front, rest)) = cut(text) else {
        return None;
    };
    match item_kind(front) {
        Some(kind) => Some((kind, rest)),
        None => None,
    }
}

// The kind of item that a word names.
fn item_kind(text: &str) -> Option<MovedKind>
    ensures some { IfSome result (λ kind. text.now ≡ kind_word kind) }
    ensures fit { IfSome result (λ kind. is_item_kind kind ≡ true) }
    ensures none { IfNone result (NoPart OfKind text.now) }
{
    let kind = read_kind(text)?;
    if is_item_kind(kind) { Some(kind) } else { None }
}

// Whether a thing of this kind is an item.
pub(crate) fn is_item_kind(kind: MovedKind) -> bool
    ensures { result ≡ is_item_kind kind }
{
    match kind {
        MovedKind::TileItem | MovedKind::MediaItem | MovedKind::RowItem => true,
        MovedKind::TilesMediaLink | MovedKind::RowsMediaLink | MovedKind::RowsTilesLink => false,
    }
}

// The size before the first space, and what follows that space.
fn next_size<'a>(text: &'a str) -> Option<(u64, &'a str)>
    ensures some { IfSome result (λ read. text.now ≡ decimal read.0 ++ (32 ∷ read.1.now)) }
    ensures fit { IfSome result (λ read. is_number (pos read.0) ≡ true) }
    ensures none { IfNone result (NoFront OfSize text.now) }
{
    let Some((front, rest)) = cut(text) else {
        return None;
    };
    match read_size(front) {
        Some(size) => Some((size, rest)),
        None => None,
    }
}

// The size that the text is.
fn read_size(text: &str) -> Option<u64>
    ensures some { IfSome result (λ size. text.now ≡ decimal size) }
    ensures fit { IfSome result (λ size. is_number (pos size) ≡ true) }
    ensures none { IfNone result (NoPart OfSize text.now) }
{
    let Some(number) = last_number(text) else {
        return None;
    };
    if number < 0 {
        None
    } else {
        Some(number as u64)
    }
}

// The number before the first space, and what follows that space.
fn next_number<'a>(text: &'a str) -> Option<(i64, &'a str)>
    ensures some { IfSome result (λ read. text.now ≡ signed_decimal read.0 ++ (32 ∷ read.1.now)) }
    ensures fit { IfSome result (λ read. is_number read.0 ≡ true) }
    ensures none { IfNone result (NoFront OfNumber text.now) }
{
    let Some((front, rest)) = cut(text) else {
        return None;
    };
    match last_number(front) {
        Some(number) => Some((number, rest)),
        None => None,
    }
}

// The number that the text is.
fn last_number(text: &str) -> Option<i64>
    ensures some { IfSome result (λ number. text.now ≡ signed_decimal number) }
    ensures fit { IfSome result (λ number. is_number number ≡ true) }
    ensures none { IfNone result (NoPart OfNumber text.now) }
{
    let number = read_number(text)?;
    Some(number)
}

// The mapping before the first space, and what follows that space.
fn next_mapping<'a>(text: &'a str) -> Option<(Mapping, &'a str)>
    ensures some { IfSome result (λ read. text.now ≡ mapping_word read.0 ++ (32 ∷ read.1.now)) }
    ensures none { IfNone result (NoFront OfMapping text.now) }
{
    let Some((front, rest)) = cut(text) else {
        return None;
    };
    match read_mapping(front) {
        Some(mapping) => Some((mapping, rest)),
        None => None,
    }
}

// The mode before the first space, and what follows that space.
fn next_mode<'a>(text: &'a str) -> Option<(Mode, &'a str)>
    ensures some { IfSome result (λ read. text.now ≡ mode_word read.0 ++ (32 ∷ read.1.now)) }
    ensures none { IfNone result (NoFront OfMode text.now) }
{
    let Some((front, rest)) = cut(text) else {
        return None;
    };
    match read_mode(front) {
        Some(mode) => Some((mode, rest)),
        None => None,
    }
}

// The digest that the text is.
fn last_digest(text: &str) -> Option<[u8; 32]>
    ensures some { IfSome result (λ digest. text.now ≡ encode_lower digest) }
    ensures fit { IfSome result (λ digest. is_bytes 32 digest ≡ true) }
    ensures none { IfNone result (NoPart OfDigest text.now) }
{
    let digest = read_fingerprint(text)?;
    fits_digest(&digest);
    Some(digest)
}

// What stands behind the word of an addition.
fn read_add(text: &str) -> Option<LineEntry>
    ensures { option_map entry_said result ≡ entry_from (codes "add" ++ (32 ∷ text.now)) }
{
    let Some((front, rest)) = cut(text) else {
        return None;
    };
    let Some(package) = last_uuid(front) else {
        return None;
    };
    let Some((front, rest)) = cut(rest) else {
        return None;
    };
    let Some(identity) = last_uuid(front) else {
        return None;
    };
    let Some((kind, rest)) = next_kind(rest) else {
        return None;
    };
    let Some((size, rest)) = next_size(rest) else {
        return None;
    };
    match last_digest(rest) {
        Some(digest) => Some(LineEntry::Add {
            package,
            identity,
            kind,
            size,
            digest,
        }),
        None => None,
    }
}

// What stands behind the word of a deletion.
fn read_delete(text: &str) -> Option<LineEntry>
    ensures { option_map entry_said result ≡ entry_from (codes "delete" ++ (32 ∷ text.now)) }
{
    let Some((front, rest)) = cut(text) else {
        return None;
    };
    let Some(package) = last_uuid(front) else {
        return None;
    };
    match last_uuid(rest) {
        Some(identity) => Some(LineEntry::Delete { package, identity }),
        None => None,
    }
}

// What stands behind the word of a link that comes or goes.
fn read_link(text: &str, comes: bool) -> Option<LineEntry>
    ensures { option_map entry_said result ≡ entry_from (link_verb comes ++ (32 ∷ text.now)) }
{
    let Some((mapping, rest)) = next_mapping(text) else {
        return None;
    };
    let Some((front, rest)) = cut(rest) else {
        return None;
    };
    let Some(package) = last_uuid(front) else {
        return None;
    };
    let Some((front, rest)) = cut(rest) else {
        return None;
    };
    let Some(base) = last_uuid(front) else {
        return None;
    };
    match last_uuid(rest) {
        Some(other) => Some(link_entry(comes, package, mapping, base, other)),
        None => None,
    }
}

// The entry of a link that comes or goes.
fn link_entry(comes: bool, package: Uuid, mapping: Mapping, base: Uuid, other: Uuid) -> LineEntry
    ensures { entry_said result ≡ link_said comes «package» mapping base other }
{
    if comes {
        LineEntry::Link {
            package,
            mapping,
            base,
            other,
        }
    } else {
        LineEntry::Unlink {
            package,
            mapping,
            base,
            other,
        }
    }
}

// The rectangle that the text is.
fn read_rect(text: &str) -> Option<Rect>
    ensures some { IfSome result (λ rect. text.now ≡ rect_text rect) }
    ensures fit { IfSome result (λ rect. is_rect rect ≡ true) }
    ensures none { IfNone result (NoParts rect_slots text.now) }
{
    let Some((zoom, rest)) = next_number(text) else {
        return None;
    };
    let Some((column, rest)) = next_number(rest) else {
        return None;
    };
    let Some((last_column, rest)) = next_number(rest) else {
        return None;
    };
    let Some((row, rest)) = next_number(rest) else {
        return None;
    };
    match last_number(rest) {
        Some(last_row) => Some(Rect {
            zoom,
            column,
            last_column,
            row,
            last_row,
        }),
        None => None,
    }
}

// What stands behind the word of a split.
fn read_split(text: &str) -> Option<LineEntry>
    ensures { option_map entry_said result ≡ entry_from (codes "split" ++ (32 ∷ text.now)) }
{
    let Some((front, rest)) = cut(text) else {
        return None;
    };
    let Some(package) = last_uuid(front) else {
        return None;
    };
    let Some((front, rest)) = cut(rest) else {
        return None;
    };
    let Some(child) = last_uuid(front) else {
        return None;
    };
    let Some((mode, rest)) = next_mode(rest) else {
        return None;
    };
    match read_rect(rest) {
        Some(rect) => Some(LineEntry::Split {
            package,
            child,
            mode,
            rect,
        }),
        None => None,
    }
}

// What stands behind the word of a merge.
fn read_merge(text: &str) -> Option<LineEntry>
    ensures { option_map entry_said result ≡ entry_from (codes "merge" ++ (32 ∷ text.now)) }
{
    let Some((front, rest)) = cut(text) else {
        return None;
    };
    let Some(child) = last_uuid(front) else {
        return None;
    };
    let Some((front, rest)) = cut(rest) else {
        return None;
    };
    let Some(into) = last_uuid(front) else {
        return None;
    };
    match last_number(rest) {
        Some(ticket) => Some(LineEntry::Merge {
            child,
            into,
            ticket,
        }),
        None => None,
    }
}
