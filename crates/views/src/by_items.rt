//! The SQL of a live package of many bytes: one content is in memory at a time.
ghost use Rattle.std.specs.Prelude.{◌≡◌, true, IfOk, IsTrue, List, OnErr, OnOk, map};
ghost use Rattle.std.specs.Io.KnownBytes.{Appends};
ghost use Rattle.std.specs.List.{AllZip};
ghost use Rattle.sheet_types.specs.Matrix.{is_good_frame};
ghost use Rattle.sheet_types.specs.Texts.{kind_of};
ghost use Rattle.sheet_types.specs.World.{is_item_kind, item_moved};
ghost use Rattle.sheet_types.specs.declared.command.Item.{Item as ModelItem};
ghost use Rattle.view_export.specs.Exports.{export_text, item_rows, items_behind};
ghost use Rattle.view_export.specs.Numbers.{AreNumbersOf, no_counts};
ghost use Rattle.world.specs.Worlds.{IsRead};
ghost use Rattle.manifest_csv.specs.Sent.{WentOut};
ghost use Rattle.view_items.specs.Parts.{OfTold};
ghost use Rattle.view_world.specs.Looks.{LeavesOpen};
ghost use Rattle.views.specs.ByItems.{IsBareOf};
ghost use Rattle.views.specs.Printed.{IsUntouched};
ghost use Rattle.views.specs.Written.{Began, IsExport, IsOfLive, LeavesUnknown};

use crate::writing::{is_good, send_links, ticket_of};
use manifest_csv::package_manifests::ManifestFault;
use manifest_csv::questions::ToldHoldings;
use manifest_csv::sending::send;
use package_tables::fault::Fault;
use sheet_types::collections::{Bytes, Text};
use sheet_types::command::{Content, Item, Relation};
use sheet_types::frame::Frame;
use sheet_types::receipt::{Moved, MovedKind};
use sqlite::Alter;
use std::alloc::{AllocError, Global};
use std::collections::BTreeMap;
use std::io::Write;
use uuid::Uuid;
use view_export::lines::item_rows;
use view_export::numbers::{Counts, numbers_of};
use view_export::opening::{closing, opening};
use view_items::finding::item_in;
use world::world::World;

/// A content of this kind with nothing in it.
fn bare_content(alloc: Global, kind: MovedKind) -> Content
    ensures { is_item_kind kind ≡ true → kind_of result ≡ kind }
{
    match kind {
        MovedKind::TileItem => Content::Tile {
            zoom: 0,
            column: 0,
            row: 0,
            bytes: Bytes::from_vec(Vec::new(alloc)),
        },
        MovedKind::MediaItem => Content::Media {
            content_type: Text::from_string(String::new(alloc)),
            bytes: Bytes::from_vec(Vec::new(alloc)),
        },
        MovedKind::RowItem
        | MovedKind::TilesMediaLink
        | MovedKind::RowsMediaLink
        | MovedKind::RowsTilesLink => Content::Row {
            x: 0,
            y: 0,
            code: 0,
            label: Text::from_string(String::new(alloc)),
        },
    }
}

/// An item of the kind and the identity that are told of: these two give it its number.
fn bare_item(alloc: Global, told: &Moved) -> Item
    ensures identity { result.identity ≡ told.now.base }
    ensures kind { is_item_kind told.now.kind ≡ true → kind_of result.content ≡ told.now.kind }
{
    Item {
        identity: told.base,
        content: bare_content(alloc, told.kind),
    }
}

/// The same of all that are told of, in turn.
fn bare_items(alloc: Global, told: &[Moved]) -> Result<Vec<Item>, AllocError>
    ensures { IfOk result (λ items. AllZip IsBareOf told.now items.items) }
{
    let mut items = Vec::new(alloc);
    for moved in told {
        items.push(bare_item(alloc, moved))?;
    }
    Ok(items)
}

/// The numbers of the items that are told of.
fn numbers_told(alloc: Global, told: &[Moved]) -> Result<BTreeMap<Uuid, u64>, Fault>
    ensures { IfOk result (λ numbers. (items : List ModelItem) → told.now ≡ map item_moved items
        → AreNumbersOf numbers items) }
{
    let items = bare_items(alloc, told)?;
    match numbers_of(alloc, items.as_slice()) {
        Ok(numbers) => Ok(numbers),
        Err(_) => Err(Fault::OutOfMemory),
    }
}

/// Writes the rows of the items that are told of, each found and dropped again, under the next number of its kind.
fn send_told<S: Alter + Drop, W: Write>(
    alloc: Global,
    world: &mut World<S>,
    package: Uuid,
    frame: &Frame,
    told: &[Moved],
    writer: &mut W,
) -> Result<(), ManifestFault>
    requires { IsTrue (is_good_frame frame.now) }
    ensures read { IsUntouched S.Store world.old world.new }
    ensures ok { OnOk result (OfTold S.Store «package» told.now world.old world.new (λ items.
        Appends (W.contents writer.old) (W.contents writer.new) (items_behind frame.now no_counts items))) }
    ensures err { OnErr result (OfTold S.Store «package» told.now world.old world.new (λ items.
        Began (W.contents writer.old) (W.contents writer.new) (items_behind frame.now no_counts items))) }
    ensures live { IsOfLive result }
    ensures opens { LeavesOpen S.Store world.old world.new result }
{
    let mut counts = Counts::none();
    for moved in told {
        let item = item_in(alloc, world, package, moved.base)?;
        counts = counts.count_content(&item.content);
        let rows = item_rows(alloc, frame, counts.of_kind(&item.content), &item)?;
        send(writer, rows.as_bytes())?;
    }
    Ok(())
}

/// Writes a package of this frame and ticket whose items are told of and that holds these links.
fn send_by_items<S: Alter + Drop, W: Write>(
    alloc: Global,
    world: &mut World<S>,
    package: Uuid,
    frame: &Frame,
    ticket: u64,
    told: &[Moved],
    links: &[Relation],
    writer: &mut W,
) -> Result<(), ManifestFault>
    requires { IsTrue (is_good_frame frame.now) }
    ensures read { IsUntouched S.Store world.old world.new }
    ensures ok { OnOk result (OfTold S.Store «package» told.now world.old world.new (λ items.
        Appends (W.contents writer.old) (W.contents writer.new)
        (export_text frame.now «package» ticket items links.now))) }
    ensures err { OnErr result (OfTold S.Store «package» told.now world.old world.new (λ items.
        WentOut (W.contents writer.old) (W.contents writer.new)
        (export_text frame.now «package» ticket items links.now))) }
    ensures live { IsOfLive result }
    ensures opens { LeavesOpen S.Store world.old world.new result }
{
    let numbers = numbers_told(alloc, told)?;
    let head = opening(alloc, frame, package, ticket)?;
    send(writer, head.as_bytes())?;
    send_told(alloc, world, package, frame, told, writer)?;
    send_links(alloc, &numbers, links, writer)?;
    send(writer, closing().as_bytes())?;
    Ok(())
}

/// Writes the SQL of a package of this frame. What its receipts tell of its items and its links are
/// in memory, and one content.
pub(crate) fn write_by_items<S: Alter + Drop, W: Write>(
    alloc: Global,
    world: &mut World<S>,
    package: Uuid,
    writer: &mut W,
) -> Result<(), ManifestFault>
    ensures read { IsRead S.Store world.old world.new }
    ensures written { IsExport S.Store «package» world.old world.new (W.contents writer.old) (W.contents writer.new)
        result }
    ensures unknown { LeavesUnknown writer.old writer.new result }
    ensures opens { LeavesOpen S.Store world.old world.new result }
{
    let frame = world.frame();
    let Some((told, links)) = world.ask(alloc, package, &ToldHoldings)? else {
        return Err(ManifestFault::Unknown);
    };
    let ticket = ticket_of(alloc, world, package)?;
    // The frame of a world is good, and is asked for that here since no call says so.
    if !is_good(&frame) {
        return Err(ManifestFault::Failed(Fault::StoreFault));
    }
    send_by_items(
        alloc,
        world,
        package,
        &frame,
        ticket,
        told.as_slice(),
        links.as_slice(),
        writer,
    )
}
