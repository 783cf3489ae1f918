//! What a command may hold, whatever the world is.
ghost use Rattle.std.specs.Prelude.{◌≡◌, ◌==◌};
ghost use Rattle.std.specs.List.{list_all, list_any};
ghost use Rattle.sheet_types.specs.Refuse.{bad_text, is_printable, has_good_size, too_large};

use crate::command::{Command, Content};

const MAX_DATA: usize = 1_048_576;

const MAX_CONTENT_TYPE: usize = 100;

const MAX_LABEL: usize = 200;

const MAX_CODE: i64 = 999_999;

/// How many levels below the archive a loan may lie (profile); the model has it as `greatest_depth`.
pub const GREATEST_DEPTH: u64 = 4;

/// The greatest number of a row of items (profile).
pub const GREATEST_NUMBER: i64 = 1_000_000;

/// The most items of one kind that a package may have (profile); the model has it as `greatest_items`.
pub const GREATEST_ITEMS: u64 = 1_000_000;

/// The most links that a package may have (profile); the model has it as `greatest_links`.
pub const GREATEST_LINKS: u64 = 4_000_000;

/// The most packages that a world may have (profile); the model has it as `greatest_packages`.
pub const GREATEST_PACKAGES: usize = 256;

/// The most receipts that a world may have (profile), and so the greatest number of one; the model
/// has it as `greatest_receipts`.
pub const GREATEST_RECEIPTS: u64 = 1_000_000_000;

/// Whether each part of a content is within its limits (profile): data of 1 to 1,048,576 bytes, a
/// content type of 1 to 100 bytes, a label of 0 to 200 bytes, a code of 0 to 999,999.
pub fn has_good_size(content: &Content) -> bool
    ensures { result ≡ has_good_size content.now }
{
    match content {
        Content::Tile { bytes, .. } => (1..=MAX_DATA).contains(&bytes.as_slice().len()),
        Content::Media {
            content_type,
            bytes,
        } => {
            (1..=MAX_DATA).contains(&bytes.as_slice().len())
                && (1..=MAX_CONTENT_TYPE).contains(&content_type.as_str().len())
        }
        Content::Row { code, label, .. } => {
            label.as_str().len() <= MAX_LABEL && (0..=MAX_CODE).contains(code)
        }
    }
}

/// Whether an added content is out of its limits. Of other commands, no.
pub fn is_too_large(command: &Command) -> bool
    ensures { result ≡ too_large command.now }
{
    match command {
        Command::Add { content, .. } => !has_good_size(content),
        _ => false,
    }
}

/// Whether a command adds a content type that is not of printable ASCII (32 to 126), or a label with a line feed.
pub fn has_bad_text(command: &Command) -> bool
    ensures { result ≡ bad_text command.now }
{
    match command {
        Command::Add {
            content: Content::Media { content_type, .. },
            ..
        } => !is_printable(content_type.as_str()),
        Command::Add {
            content: Content::Row { label, .. },
            ..
        } => has_line_feed(label.as_str()),
        _ => false,
    }
}

// Whether a text is of printable ASCII.
fn is_printable(text: &str) -> bool
    ensures { result ≡ list_all is_printable text.now }
{
    text.as_bytes()
        .iter()
        .all(|byte| 32 <= *byte && *byte <= 126)
}

fn has_line_feed(text: &str) -> bool
    ensures { result ≡ list_any (λ c. c == 10) text.now }
{
    text.as_bytes().iter().any(|byte| *byte == b'\n')
}
