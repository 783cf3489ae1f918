//! What an edited file holds, as values.
use crate::sharing::HeldContent;
use sheet_types::collections::Text;
use sheet_types::command::Mapping;
use sheet_types::frame::Frame;
use uuid::Uuid;

/// The export that a file was: the package, and its ticket then.
#[derive(Clone, Copy, PartialEq, Eq)]
pub struct Export {
    pub package: Uuid,
    pub ticket: i64,
}

/// An item of a file, by its number among those of its kind. The identity that stands beside it may
/// be missing, or that of another item.
#[derive(Drop)]
pub struct HeldItem<'a> {
    pub number: i64,
    pub identity: Option<Uuid>,
    pub content: HeldContent<'a>,
}

/// A link of a file, by the numbers of its ends.
#[derive(Clone, Copy, PartialEq, Eq)]
pub struct HeldLink {
    pub mapping: Mapping,
    pub base: i64,
    pub other: i64,
}

/// A record of a file that could not be listed, by its number, if it has one: its kind, a space,
/// and a word that says why.
#[derive(Drop)]
pub struct BadRecord {
    pub number: Option<i64>,
    pub text: Text,
}

/// What a file holds. Its items stand by kind and number.
#[derive(Drop)]
pub struct Held<'a> {
    /// The export that it was; none of a file of other software.
    pub export: Option<Export>,
    /// The number of the reference system of its points.
    pub system: Option<i64>,
    /// The frame of its tiles.
    pub frame: Option<Frame>,
    pub items: Vec<HeldItem<'a>>,
    pub links: Vec<HeldLink>,
    pub bad: Vec<BadRecord>,
}
