//! What a page tells of: the live packages, the things and links that they hold, the receipts, and names.
ghost use Rattle.std.specs.Prelude.{◌≡◌, IfOk, bytes_eq, option_map};
ghost use Rattle.sheet_types.specs.Custody.{ends_at};
ghost use Rattle.view_report.specs.Registers.{
  about_of,
  command_of,
  is_split_until,
  live_of,
  name_of,
  number_of,
  receipt_found,
  thing_found,
  thing_of,
};

use crate::lists::{Names, Things};
use sheet_types::collections::Text;
use sheet_types::command::{Content, Item};
use sheet_types::error::OutOfMemory;
use sheet_types::fingerprints::fingerprint;
use sheet_types::frame::Frame;
use sheet_types::receipt::{MovedKind, Receipt, Sums};
use uuid::Uuid;

/// A live package.
#[derive(Clone, Copy, PartialEq, Eq)]
pub struct Live {
    /// The package's own.
    pub uuid: Uuid,
    /// The package that it is lent from, none of the archive.
    pub parent: Option<Uuid>,
    /// How many loans it is below the archive.
    pub depth: u64,
    /// The number of the receipt of the split that made it, 0 of the archive.
    pub loan: u64,
    /// How many splits there were up to that receipt: it has its colour and its pattern by this number, as long as
    /// it lives.
    pub number: usize,
    /// The number of the last receipt that names it, 0 where none does.
    pub ticket: u64,
    /// What it holds.
    pub sums: Sums,
}

/// What an item is, without its bytes.
#[derive(Drop)]
pub enum About {
    Sheet {
        zoom: i64,
        column: i64,
        row: i64,
    },
    Medium {
        content_type: Text,
    },
    Mark {
        x: i64,
        y: i64,
        code: i64,
        label: Text,
    },
}

/// An item, and the package that holds it.
#[derive(Drop)]
pub struct Thing {
    pub holder: Uuid,
    pub identity: Uuid,
    pub about: About,
    /// The bytes that it counts for.
    pub size: u64,
    /// The SHA-256 of its content.
    pub fingerprint: [u8; 32],
}

/// A link, and the package that holds it.
#[derive(Clone, Copy, PartialEq, Eq)]
pub struct Tie {
    pub holder: Uuid,
    pub kind: MovedKind,
    pub base: Uuid,
    pub other: Uuid,
}

/// What people call a package or a sheet.
#[derive(Drop)]
pub struct Name {
    pub uuid: Uuid,
    pub name: Text,
}

/// All that a page tells of. Packages stand in the order of the receipts that made them, the
/// archive first; receipts in that of their numbers. A lender's things stand before those of its
/// loans, since a map draws them so.
#[derive(Drop)]
pub struct Register {
    /// The package without parent.
    pub archive: Uuid,
    pub frame: Frame,
    pub packages: Vec<Live>,
    pub things: Things,
    pub ties: Vec<Tie>,
    pub receipts: Vec<Receipt>,
    pub names: Names,
}

/// What an item is.
fn about_of(content: &Content) -> Result<About, OutOfMemory>
    ensures { IfOk result (λ about. about ≡ about_of content.now) }
{
    match content {
        Content::Tile {
            zoom,
            column,
            row,
            ..
        } => Ok(About::Sheet {
            zoom: *zoom,
            column: *column,
            row: *row,
        }),
        Content::Media { content_type, .. } => Ok(About::Medium {
            content_type: content_type.try_clone()?,
        }),
        Content::Row { x, y, code, label } => Ok(About::Mark {
            x: *x,
            y: *y,
            code: *code,
            label: label.try_clone()?,
        }),
    }
}

/// An item of this package, without its bytes.
///
/// # Errors
///
/// Want of memory.
pub fn thing_of(holder: Uuid, item: &Item) -> Result<Thing, OutOfMemory>
    ensures { IfOk result (λ thing. thing ≡ thing_of holder item.now) }
{
    let about = about_of(&item.content)?;
    Ok(Thing {
        holder,
        identity: item.identity,
        about,
        size: item.content.size() as u64,
        fingerprint: fingerprint(&item.content),
    })
}

/// Whether two UUIDs are the same.
pub fn is_same(a: Uuid, b: Uuid) -> bool
    ensures { result ≡ bytes_eq a b }
{
    a == b
}

/// Whether an end is this package.
pub fn ends_at(end: Option<Uuid>, id: Uuid) -> bool
    ensures { result ≡ ends_at end id }
{
    match end {
        Some(found) => is_same(found, id),
        None => false,
    }
}

/// What people call a package or a sheet, if they do.
pub fn name_of<'t>(names: &'t Names, uuid: Uuid) -> Option<&'t Name>
    ensures { option_map (λ n. n.now) result ≡ name_of names.now uuid }
{
    names.find_name(uuid)
}

/// The package of this UUID, if it lives.
pub fn live_of(packages: &[Live], uuid: Uuid) -> Option<&Live>
    ensures { option_map (λ p. p.now) result ≡ live_of packages.now uuid }
{
    packages.iter().find(|package| is_same(package.uuid, uuid))
}

/// The item of this identity, if a package holds it.
pub fn thing_found(things: &Things, identity: Uuid) -> Option<&Thing>
    ensures { option_map (λ t. t.now) result ≡ thing_found things.now identity }
{
    things.find_thing(identity)
}

/// The receipt of this number, if there is one.
pub fn receipt_found(receipts: &[Receipt], seq: u64) -> Option<&Receipt>
    ensures { option_map (λ r. r.now) result ≡ receipt_found receipts.now seq }
{
    receipts.iter().find(|receipt| receipt.seq == seq)
}

/// The command of a receipt: the first word of its line.
pub fn command_of(receipt: &Receipt) -> &str
    ensures { result.now ≡ command_of receipt.now }
{
    let line = receipt.line.as_str();
    match line.split_once(' ') {
        Some((word, _)) => word,
        None => line,
    }
}

/// Whether a receipt is that of a split, and no later than this one.
fn is_split_until(receipt: &Receipt, seq: u64) -> bool
    ensures { result ≡ is_split_until seq receipt.now }
{
    (receipt.seq <= seq) & (command_of(receipt) == "split")
}

/// How many splits there were up to this receipt. Of a loan, and the receipt that made it, that is its number,
/// whichever loans came home since; of the archive it is 0.
pub fn number_of(receipts: &[Receipt], loan: u64) -> usize
    ensures { result ≡ number_of receipts.now loan }
{
    receipts
        .iter()
        .filter(|receipt| is_split_until(receipt, loan))
        .count()
}
