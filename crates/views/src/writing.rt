//! The SQL of a live package of a world, a row at a time.
ghost use Rattle.std.specs.Prelude.{◌≡◌, true, IfOk, IsTrue, List, OnErr, OnOk, flat_map};
ghost use Rattle.std.specs.Option.{option_map};
ghost use Rattle.sheet_types.specs.Custody.{ticket};
ghost use Rattle.sheet_types.specs.Matrix.{is_good_frame};
ghost use Rattle.sheet_types.specs.Ordered.{entry};
ghost use Rattle.sheet_types.specs.World.{World as ModelWorld, is_live};
ghost use Rattle.sheet_types.specs.declared.command.Item.{Item as ModelItem};
ghost use Rattle.std.specs.Io.KnownBytes.{Appends};
ghost use Rattle.world.specs.declared.reading.PackageSight.{PackageSight as ListedSight};
ghost use Rattle.world.specs.Worlds.{IsRead, StandsFor};
ghost use Rattle.view_export.specs.Exports.{export_text, items_behind, link_row};
ghost use Rattle.view_export.specs.Numbers.{AreNumbersOf, no_counts};
ghost use Rattle.manifest_csv.specs.Sent.{WentOut};
ghost use Rattle.view_world.specs.Looks.{LeavesOpen};
ghost use Rattle.views.specs.Written.{Began, IsExport, IsOfLive, LeavesUnknown};

use crate::by_items::write_by_items;
use manifest_csv::package_manifests::ManifestFault;
use manifest_csv::questions::is_large;
use manifest_csv::sending::send;
use matrix_rules::check::FrameRules;
use package_tables::fault::Fault;
use sheet_types::command::{Item, Relation};
use sheet_types::frame::Frame;
use sqlite::Alter;
use std::alloc::Global;
use std::collections::BTreeMap;
use std::io::Write;
use uuid::Uuid;
use view_export::lines::{item_rows, link_row};
use view_export::numbers::{Counts, numbers_of};
use view_export::opening::{closing, opening};
use world::reading::PackageSight;
use world::world::World;

/// Writes the rows of items, each under the next number of its kind.
fn send_items<W: Write>(
    alloc: Global,
    frame: &Frame,
    items: &[Item],
    writer: &mut W,
) -> Result<(), ManifestFault>
    requires { IsTrue (is_good_frame frame.now) }
    ensures ok { OnOk result (Appends (W.contents writer.old) (W.contents writer.new)
        (items_behind frame.now no_counts items.now)) }
    ensures err { OnErr result (Began (W.contents writer.old) (W.contents writer.new)
        (items_behind frame.now no_counts items.now)) }
    ensures live { IsOfLive result }
{
    let mut counts = Counts::none();
    for item in items {
        counts = counts.count_content(&item.content);
        let rows = item_rows(alloc, frame, counts.of_kind(&item.content), item)?;
        send(writer, rows.as_bytes())?;
    }
    Ok(())
}

/// Writes the rows of links.
pub(crate) fn send_links<W: Write>(
    alloc: Global,
    numbers: &BTreeMap<Uuid, u64>,
    links: &[Relation],
    writer: &mut W,
) -> Result<(), ManifestFault>
    ensures ok { OnOk result ((items : List ModelItem) → AreNumbersOf numbers.now items
        → Appends (W.contents writer.old) (W.contents writer.new) (flat_map (link_row items) links.now)) }
    ensures err { OnErr result ((items : List ModelItem) → AreNumbersOf numbers.now items
        → Began (W.contents writer.old) (W.contents writer.new) (flat_map (link_row items) links.now)) }
    ensures live { IsOfLive result }
{
    for link in links {
        let row = link_row(alloc, numbers, link)?;
        send(writer, row.as_bytes())?;
    }
    Ok(())
}

/// Writes a package of this frame and ticket that holds these items and links.
///
/// # Errors
///
/// Want of memory, or a writer that failed. A beginning of the text went out, and not all of it:
/// without its end it makes nothing.
pub fn send_export<W: Write>(
    alloc: Global,
    frame: &Frame,
    package: Uuid,
    ticket: u64,
    items: &[Item],
    links: &[Relation],
    writer: &mut W,
) -> Result<(), ManifestFault>
    requires { IsTrue (is_good_frame frame.now) }
    ensures ok { OnOk result (Appends (W.contents writer.old) (W.contents writer.new)
        (export_text frame.now «package» ticket items.now links.now)) }
    ensures err { OnErr result (WentOut (W.contents writer.old) (W.contents writer.new)
        (export_text frame.now «package» ticket items.now links.now)) }
    ensures live { IsOfLive result }
{
    let numbers = numbers_of(alloc, items)?;
    let head = opening(alloc, frame, package, ticket)?;
    send(writer, head.as_bytes())?;
    send_items(alloc, frame, items, writer)?;
    send_links(alloc, &numbers, links, writer)?;
    send(writer, closing().as_bytes())?;
    Ok(())
}

/// What the list of packages says of one.
fn sight_among(sights: &[PackageSight], package: Uuid) -> Option<&PackageSight>
    ensures { option_map (λ s. s.now) result ≡ entry (λ (s : ListedSight). s.uuid) «package» sights.now }
{
    sights.iter().find(|sight| sight.uuid == package)
}

/// The number of the last receipt of a package that is live.
pub(crate) fn ticket_of<S: Alter + Drop>(
    alloc: Global,
    world: &World<S>,
    package: Uuid,
) -> Result<u64, Fault>
    ensures { IfOk result (λ number. (w : ModelWorld) → StandsFor S.Store world.now w
        → is_live w «package» ≡ true → number ≡ ticket w «package») }
{
    let sights = world.packages(alloc)?;
    match sight_among(sights.as_slice(), package) {
        Some(sight) => Ok(sight.ticket),
        None => Ok(0),
    }
}

pub(crate) fn is_good(frame: &Frame) -> bool
    ensures { IsTrue result → IsTrue (is_good_frame frame.now) }
{
    frame.check().is_ok()
}

/// Writes the SQL of a package. Of one of many bytes one content is in memory at a time; of another
/// all are read before any is written.
///
/// # Errors
///
/// A package that is not live, want of memory, a store or a writer that failed. The world is as before.
pub fn write_export<S: Alter + Drop, W: Write>(
    alloc: Global,
    world: &mut World<S>,
    package: Uuid,
    writer: &mut W,
) -> Result<(), ManifestFault>
    ensures read { IsRead S.Store world.old world.new }
    ensures written { IsExport S.Store «package» world.old world.new (W.contents writer.old) (W.contents writer.new)
        result }
    ensures unknown { LeavesUnknown writer.old writer.new result }
    ensures opens { LeavesOpen S.Store world.old world.new result }
{
    if is_large(world, package) {
        return write_by_items(alloc, world, package, writer);
    }
    let frame = world.frame();
    let Some((items, links)) = world.holdings(alloc, package)? else {
        return Err(ManifestFault::Unknown);
    };
    let ticket = ticket_of(alloc, world, package)?;
    // The frame of a world is good, and is asked for that here since no call says so.
    if !is_good(&frame) {
        return Err(ManifestFault::Failed(Fault::StoreFault));
    }
    send_export(
        alloc,
        &frame,
        package,
        ticket,
        items.as_slice(),
        links.as_slice(),
        writer,
    )
}
