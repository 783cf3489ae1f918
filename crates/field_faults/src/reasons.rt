//! Why a package cannot hold an item, by the item alone.
ghost use Rattle.std.specs.Prelude.{◌≡◌, ◌==◌, IsTrue, pos};
ghost use Rattle.std.specs.List.{list_all, list_any};
ghost use Rattle.sheet_types.specs.Matrix.{is_good_frame, is_within};
ghost use Rattle.sheet_types.specs.Refuse.{is_length_within, is_printable};
ghost use Rattle.field_faults.specs.Lines.{reason_word};
ghost use Rattle.field_faults.specs.Reasons.{reason_of};

use matrix_rules::ground::{has_place, in_frame};
use sheet_types::command::Content;
use sheet_types::frame::Frame;

/// Why a package cannot hold an item of a file.
#[derive(Clone, Copy, PartialEq, Eq)]
pub enum Reason {
    /// The bytes of a tile or a medium are none, or more than 1,048,576.
    BadData,
    /// There is no such tile in the frame.
    BadPlace,
    /// A content type is not 1 to 100 bytes of printable ASCII, or a label has a line feed or more than 200 bytes.
    BadText,
    /// A code is not from 0 to 999,999.
    BadCode,
    /// The point is not in the frame.
    BadPoint,
    /// An item of an export names an item of the package, and stands under the number of another.
    Renumbered,
    /// A tile that could be held stands before it at its place.
    Twice,
    /// Nothing is to be taken away, and the package has other bytes at the place of a tile.
    Taken,
}

impl Reason {
    /// The word by which it is told.
    pub fn word(self) -> &'static str
        ensures { result.now ≡ reason_word self }
    {
        match self {
            Reason::BadData => "data",
            Reason::BadPlace => "place",
            Reason::BadText => "text",
            Reason::BadCode => "code",
            Reason::BadPoint => "point",
            Reason::Renumbered => "number",
            Reason::Twice => "twice",
            Reason::Taken => "taken",
        }
    }
}

const MAX_DATA: usize = 1_048_576;

// Whether data is within its limits.
fn has_good_data(bytes: &[u8]) -> bool
    ensures { result ≡ is_length_within 1 1048576 bytes.now }
{
    1 <= bytes.len() && bytes.len() <= MAX_DATA
}

// Whether a content type is of printable ASCII.
fn is_printable(text: &str) -> bool
    ensures { result ≡ list_all is_printable text.now }
{
    text.as_bytes()
        .iter()
        .all(|byte| 32 <= *byte && *byte <= 126)
}

// Whether a content type is within its limits.
fn has_good_type(text: &str) -> bool
    ensures { result ≡ is_length_within 1 100 text.now }
{
    1 <= text.len() && text.len() <= 100
}

// Whether a label has a line feed.
fn has_line_feed(text: &str) -> bool
    ensures { result ≡ list_any (λ c. c == 10) text.now }
{
    text.as_bytes().iter().any(|byte| *byte == b'\n')
}

// Whether a label is within its limit.
fn has_good_label(text: &str) -> bool
    ensures { result ≡ is_length_within 0 200 text.now }
{
    text.len() <= 200
}

// Whether a code is within its limits.
fn has_good_code(code: i64) -> bool
    ensures { result ≡ is_within (pos 0) (pos 999999) code }
{
    0 <= code && code <= 999_999
}

/// The first reason for which no package of a frame can hold an item of this content, if there is one.
pub fn reason_of(frame: &Frame, content: &Content) -> Option<Reason>
    requires { IsTrue (is_good_frame frame.now) }
    ensures { result ≡ reason_of frame.now content.now }
{
    match content {
        Content::Tile {
            zoom,
            column,
            row,
            bytes,
        } => {
            if !has_good_data(bytes.as_slice()) {
                Some(Reason::BadData)
            } else if !has_place(frame, *zoom, *column, *row) {
                Some(Reason::BadPlace)
            } else {
                None
            }
        }
        Content::Media {
            content_type,
            bytes,
        } => {
            if !(is_printable(content_type.as_str()) & has_good_type(content_type.as_str())) {
                Some(Reason::BadText)
            } else if !has_good_data(bytes.as_slice()) {
                Some(Reason::BadData)
            } else {
                None
            }
        }
        Content::Row { x, y, code, label } => {
            if has_line_feed(label.as_str()) | !has_good_label(label.as_str()) {
                Some(Reason::BadText)
            } else if !has_good_code(*code) {
                Some(Reason::BadCode)
            } else if !in_frame(frame, *x, *y) {
                Some(Reason::BadPoint)
            } else {
                None
            }
        }
    }
}
