//! The type of a medium, by its first bytes.
ghost use Rattle.std.specs.Prelude.{◌≡◌, ◌==◌};
ghost use Rattle.std.specs.List.{list_all, starts_with};
ghost use Rattle.command_verbs.specs.Media.{has_front, is_plain, is_plain_text, media_type, type_name};

/// What a medium may be known as (RFC 2046 and the registry of media types).
#[derive(Clone, Copy, Debug, PartialEq, Eq)]
pub enum MediaType {
    /// PNG, by its signature of eight bytes (ISO 15948, 5.2).
    Png,
    /// JPEG, by the marker that begins an image and the one after it (ITU-T T.81, Annex B).
    Jpeg,
    /// PDF, by the line that begins a file (ISO 32000-1, 7.5.2).
    Pdf,
    /// Text of printable ASCII, tabs and ends of lines.
    Plain,
}

impl MediaType {
    /// Its name as a content type.
    pub fn name(self) -> &'static str
        ensures { result.now ≡ type_name self }
    {
        match self {
            MediaType::Png => "image/png",
            MediaType::Jpeg => "image/jpeg",
            MediaType::Pdf => "application/pdf",
            MediaType::Plain => "text/plain",
        }
    }
}

const PNG: &[u8; 8] = b"\x89PNG\r\n\x1a\n";

const JPEG: &[u8; 3] = b"\xff\xd8\xff";

const PDF: &[u8; 5] = b"%PDF-";

/// Whether bytes begin with these.
fn has_front(bytes: &[u8], front: &[u8]) -> bool
    ensures { result ≡ has_front bytes.now front.now }
{
    bytes.starts_with(front)
}

/// Whether bytes are a text of printable ASCII, tabs and ends of lines, and not empty.
fn is_plain_text(bytes: &[u8]) -> bool
    ensures { result ≡ is_plain_text bytes.now }
{
    !bytes.is_empty() && are_plain(bytes)
}

/// Whether each of these bytes is such a one.
fn are_plain(bytes: &[u8]) -> bool
    ensures { result ≡ list_all is_plain bytes.now }
{
    bytes.iter().all(|byte| is_plain(*byte))
}

/// Whether a byte is printable ASCII, a tab or a part of an end of line.
fn is_plain(byte: u8) -> bool
    ensures { result ≡ is_plain byte }
{
    (32 <= byte && byte <= 126) || byte == 9 || byte == 10 || byte == 13
}

/// The type that bytes are known as, if they are of one of the four.
pub fn media_type(bytes: &[u8]) -> Option<MediaType>
    ensures { result ≡ media_type bytes.now }
{
    if has_front(bytes, PNG) {
        Some(MediaType::Png)
    } else if has_front(bytes, JPEG) {
        Some(MediaType::Jpeg)
    } else if has_front(bytes, PDF) {
        Some(MediaType::Pdf)
    } else if is_plain_text(bytes) {
        Some(MediaType::Plain)
    } else {
        None
    }
}
