//! The words of lists, lines and manifests.
ghost use Rattle.std.specs.Prelude.{◌≡◌, ◌≢◌, ◌≤◌, IfSome, IfNone, Some, length};
ghost use Rattle.sheet_types.specs.Reading.{optional_uuid_text};
ghost use Rattle.sheet_types.specs.Texts.{kind_word, mapping_word, mode_word};
ghost use Rattle.sheet_types.specs.declared.command.Mapping.{Mapping};
ghost use Rattle.sheet_types.specs.declared.command.Mode.{Mode};
ghost use Rattle.sheet_types.specs.declared.receipt.MovedKind.{MovedKind};

use crate::command::{Mapping, Mode};
use crate::receipt::MovedKind;
use std::fmt;
use uuid::Uuid;

impl fmt::Display for MovedKind {
    ghost output = { λ kind. Some (kind_word kind) };

    fn fmt<W: fmt::Write>(&self, f: &mut fmt::Formatter<W>) -> fmt::Result {
        f.write_str(match self {
            MovedKind::TileItem => "tile",
            MovedKind::MediaItem => "media",
            MovedKind::RowItem => "row",
            MovedKind::TilesMediaLink => "tiles_media",
            MovedKind::RowsMediaLink => "rows_media",
            MovedKind::RowsTilesLink => "rows_tiles",
        })
    }
}

impl fmt::Display for Mapping {
    ghost output = { λ mapping. Some (mapping_word mapping) };

    fn fmt<W: fmt::Write>(&self, f: &mut fmt::Formatter<W>) -> fmt::Result {
        f.write_str(match self {
            Mapping::TilesMedia => "tiles_media",
            Mapping::RowsMedia => "rows_media",
            Mapping::RowsTiles => "rows_tiles",
        })
    }
}

impl fmt::Display for Mode {
    ghost output = { λ mode. Some (mode_word mode) };

    fn fmt<W: fmt::Write>(&self, f: &mut fmt::Formatter<W>) -> fmt::Result {
        f.write_str(match self {
            Mode::Strict => "strict",
            Mode::Follow => "follow",
        })
    }
}

/// A UUID that prints in lower case, or as the empty text where there is none.
#[derive(Clone, Copy, PartialEq, Eq)]
pub struct OrEmpty(pub Option<Uuid>);

impl OrEmpty {
    /// The text, which is written into the buffer; the buffer of `Uuid::encode_buffer` is long enough.
    pub fn encode_lower(self, buffer: &mut [u8]) -> &str
        requires { 36 ≤ length buffer.old }
        ensures { result.now ≡ optional_uuid_text self.0 }
    {
        match self.0 {
            Some(id) => id.hyphenated().encode_lower(buffer),
            None => "",
        }
    }
}

impl fmt::Display for OrEmpty {
    ghost output = { λ id. Some (optional_uuid_text id.0) };

    fn fmt<W: fmt::Write>(&self, f: &mut fmt::Formatter<W>) -> fmt::Result {
        let mut buffer = Uuid::encode_buffer();
        f.write_str(self.encode_lower(&mut buffer))
    }
}

/// The kind that a word names, `None` where it is no such word.
pub fn read_kind(text: &str) -> Option<MovedKind>
    ensures some { IfSome result (λ kind. text.now ≡ kind_word kind) }
    ensures none { IfNone result ((kind : MovedKind) → text.now ≢ kind_word kind) }
{
    match text {
        "tile" => Some(MovedKind::TileItem),
        "media" => Some(MovedKind::MediaItem),
        "row" => Some(MovedKind::RowItem),
        "tiles_media" => Some(MovedKind::TilesMediaLink),
        "rows_media" => Some(MovedKind::RowsMediaLink),
        "rows_tiles" => Some(MovedKind::RowsTilesLink),
        _ => None,
    }
}

/// The mapping table that a word names, `None` where it names none.
pub fn read_mapping(text: &str) -> Option<Mapping>
    ensures some { IfSome result (λ mapping. text.now ≡ mapping_word mapping) }
    ensures none { IfNone result ((mapping : Mapping) → text.now ≢ mapping_word mapping) }
{
    match text {
        "tiles_media" => Some(Mapping::TilesMedia),
        "rows_media" => Some(Mapping::RowsMedia),
        "rows_tiles" => Some(Mapping::RowsTiles),
        _ => None,
    }
}

/// The mode of a split that a word names, `None` where it names neither.
pub fn read_mode(text: &str) -> Option<Mode>
    ensures some { IfSome result (λ mode. text.now ≡ mode_word mode) }
    ensures none { IfNone result ((mode : Mode) → text.now ≢ mode_word mode) }
{
    match text {
        "strict" => Some(Mode::Strict),
        "follow" => Some(Mode::Follow),
        _ => None,
    }
}
