//! What a package holds, read an item at a time, so that one content is in memory at once.
//! An error is want of memory, a store that failed, or rows that no package has; the store holds what it held.
ghost use Rattle.std.specs.Prelude.{◌≡◌, Contains, IfOk, IsTrue, List, OnOk, Some, map};
ghost use Rattle.std.specs.List.{AllZip};
ghost use Rattle.std.specs.Io.KnownBytes.{Appends};
ghost use Rattle.csv.specs.Writing.{default_writer, row_text, text_written};
ghost use Rattle.sqlite.specs.Held.{state};
ghost use Rattle.sqlite.specs.State.{HasCleanDisk};
ghost use Rattle.store_sql.specs.Staying.{Stays};
ghost use Rattle.store_sql.specs.Transactions.{Rests, Looks};
ghost use Rattle.sheet_types.specs.World.{item_moved, link_kind};
ghost use Rattle.sheet_types.specs.declared.command.Item.{Item as ModelItem};
ghost use Rattle.sheet_types.specs.declared.command.Mapping.{Mapping as ModelMapping};
ghost use Rattle.package_tables.specs.Calls.{Answers};
ghost use Rattle.identity_register.specs.Calls.{Sees};
ghost use Rattle.manifest_csv.specs.ByItems.{AreTold, IsItemOf, IsLinkTold, OfPackage};
ghost use Rattle.manifest_csv.specs.Manifests.{IsBetween, item_fields, link_fields};
ghost use Rattle.manifest_csv.specs.Manifests.{manifest_header, manifest_of, records_text};

use crate::manifests::{Record, manifest_text, text_of, write_header, write_records};
use csv::{Writer, WriterBuilder};
use identity_register::look_ups::find;
use identity_register::told::tell_all;
use identity_register::whole::holdings;
use package_tables::fault::Fault;
use sheet_types::command::{Item, Mapping, Relation};
use sheet_types::error::OutOfMemory;
use sheet_types::receipt::{Moved, MovedKind};
use sqlite::{Alter, Connection};
use std::alloc::Global;
use uuid::Uuid;

/// The mapping of links of this kind.
fn mapping_of(kind: MovedKind) -> Option<Mapping>
    ensures { (m : ModelMapping) → kind ≡ link_kind m → result ≡ Some m }
{
    match kind {
        MovedKind::TilesMediaLink => Some(Mapping::TilesMedia),
        MovedKind::RowsMediaLink => Some(Mapping::RowsMedia),
        MovedKind::RowsTilesLink => Some(Mapping::RowsTiles),
        MovedKind::TileItem | MovedKind::MediaItem | MovedKind::RowItem => None,
    }
}

/// The link that this is told of.
fn link_of(told: &Moved) -> Result<Relation, Fault>
    ensures { IfOk result (IsLinkTold told.now) }
{
    let mapping = mapping_of(told.kind).ok_or(Fault::StoreFault)?;
    let other = told.other.ok_or(Fault::StoreFault)?;
    Ok(Relation::new(mapping, told.base, other))
}

/// The links that these are told of, in turn.
fn links_of(alloc: Global, told: &[Moved]) -> Result<Vec<Relation>, Fault>
    ensures { IfOk result (λ links. AllZip IsLinkTold told.now links.items) }
{
    let mut links = Vec::new(alloc);
    for moved in told {
        links.push(link_of(moved)?)?;
    }
    Ok(links)
}

/// What receipts tell of the items of the package, and its links, both in their order.
pub fn told_holdings<S: Alter>(
    conn: &mut Connection<S>,
    alloc: Global,
) -> Result<(Vec<Moved>, Vec<Relation>), Fault>
    requires { Rests (state S.Store conn.old) }
    ensures { Looks (Sees (λ f p held. AreTold p held.0.items held.1.items))
        (state S.Store conn.old) (state S.Store conn.new) result }
{
    let (items, links) = tell_all(conn, alloc)?;
    let links = links_of(alloc, &links)?;
    Ok((items, links))
}

/// The item of an identity.
pub fn find_item<S: Alter>(conn: &mut Connection<S>, identity: Uuid) -> Result<Option<Item>, Fault>
    requires { Rests (state S.Store conn.old) }
    ensures { Looks (Sees (λ f p found. IsItemOf p identity found))
        (state S.Store conn.old) (state S.Store conn.new) result }
{
    find(conn, identity)
}

/// Writes the record of the item of an identity.
fn write_item<S: Alter>(
    conn: &mut Connection<S>,
    alloc: Global,
    identity: Uuid,
    writer: &mut Writer<Vec<u8>>,
) -> Result<(), Fault>
    requires rests { Rests (state S.Store conn.old) }
    requires between { IsBetween writer.old }
    ensures text { Looks (Sees (λ f p _. (item : ModelItem)
        → Contains p.items item → item.identity ≡ identity
        → Appends (text_written (λ v. Some v.items) writer.old)
        (text_written (λ v. Some v.items) writer.new)
        (row_text default_writer (item_fields item))))
        (state S.Store conn.old) (state S.Store conn.new) result }
    ensures between { OnOk result (IsBetween writer.new) }
{
    let Some(item) = find_item(conn, identity)? else {
        return Err(Fault::StoreFault);
    };
    match item.write(writer, alloc) {
        Ok(()) => Ok(()),
        Err(_) => Err(Fault::OutOfMemory),
    }
}

/// Writes the record of each item that was told, in turn.
fn write_items<S: Alter>(
    conn: &mut Connection<S>,
    alloc: Global,
    told: &[Moved],
    writer: &mut Writer<Vec<u8>>,
) -> Result<(), Fault>
    requires rests { Rests (state S.Store conn.old) }
    requires between { IsBetween writer.old }
    ensures stays { Stays (state S.Store conn.old) (state S.Store conn.new) }
    ensures text { HasCleanDisk (state S.Store conn.new) → IsTrue (state S.Store conn.old).is_open
        → IfOk result (λ done. IsTrue (state S.Store conn.new).is_open
        × Answers (OfPackage (λ p _. told.now ≡ map item_moved p.items
        → Appends (text_written (λ v. Some v.items) writer.old)
        (text_written (λ v. Some v.items) writer.new) (records_text item_fields p.items)))
        done (state S.Store conn.old).now (state S.Store conn.new).now) }
    ensures between { OnOk result (IsBetween writer.new) }
{
    for moved in told {
        write_item(conn, alloc, moved.base, writer)?;
    }
    Ok(())
}

/// All that was written, behind these links.
fn end_with(
    mut writer: Writer<Vec<u8>>,
    alloc: Global,
    links: &[Relation],
) -> Result<Vec<u8>, OutOfMemory>
    requires { IsBetween writer }
    ensures { IfOk result (λ text. Appends (text_written (λ v. Some v.items) writer)
        (Some text.items) (records_text link_fields links.now)) }
{
    write_records(&mut writer, alloc, links)?;
    text_of(writer)
}

/// A writer that wrote the names of the columns.
fn begin(alloc: Global) -> Result<Writer<Vec<u8>>, OutOfMemory>
    ensures between { IfOk result (λ writer. IsBetween writer) }
    ensures text { IfOk result (λ writer. text_written (λ v. Some v.items) writer
        ≡ Some (row_text default_writer manifest_header)) }
{
    let mut writer = WriterBuilder::new().from_writer(Vec::new(alloc));
    write_header(&mut writer)?;
    Ok(writer)
}

/// The manifest of the package of a store.
pub fn manifest_by_items<S: Alter>(
    conn: &mut Connection<S>,
    alloc: Global,
) -> Result<Vec<u8>, Fault>
    requires { Rests (state S.Store conn.old) }
    ensures { Looks (Sees (λ f p text. text.items ≡ manifest_of p.items p.links))
        (state S.Store conn.old) (state S.Store conn.new) result }
{
    let (items, links) = told_holdings(conn, alloc)?;
    let Ok(mut writer) = begin(alloc) else {
        return Err(Fault::OutOfMemory);
    };
    write_items(conn, alloc, &items, &mut writer)?;
    match end_with(writer, alloc, &links) {
        Ok(text) => Ok(text),
        Err(_) => Err(Fault::OutOfMemory),
    }
}

/// The manifest of the package of a store, of which all contents are read at once: for few bytes that is faster.
pub fn manifest_at_once<S: Alter>(conn: &mut Connection<S>, alloc: Global) -> Result<Vec<u8>, Fault>
    requires { Rests (state S.Store conn.old) }
    ensures { Looks (Sees (λ f p text. text.items ≡ manifest_of p.items p.links))
        (state S.Store conn.old) (state S.Store conn.new) result }
{
    let (items, links) = holdings(conn, alloc)?;
    match manifest_text(alloc, items.as_slice(), links.as_slice()) {
        Ok(text) => Ok(text),
        Err(_) => Err(Fault::OutOfMemory),
    }
}
