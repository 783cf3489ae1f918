// What a store or a world reads as, as one text that can be compared. A line that begins with
// `held` says where things stand.
// Each function puts its lines behind those that are there, so that none holds a text of its own when it fails.
use crate::told::{end, number, push_sights, push_sums};
use custody::keeping::find_receipt;
use identity_register::whole::holdings;
use package_tables::fault::Fault;
use package_tables::head::all_heads;
use sheet_types::command::{Item, Relation};
use sheet_types::fingerprints::spell;
use sheet_types::receipt::{Moved, Receipt};
use sheet_types::refusal::Refusal;
use sqlite::{Alter, Connection, Row};
use std::alloc::{AllocError, Global};
use test_values::{at_rest, counts, links_text, told};
use uuid::Uuid;
use world::world::World;

const TABLES: [&str; 16] = [
    "SELECT * FROM gpkg_contents",
    "SELECT * FROM gpkg_spatial_ref_sys",
    "SELECT * FROM gpkg_tile_matrix",
    "SELECT * FROM gpkg_tile_matrix_set",
    "SELECT * FROM gpkgext_relations",
    "SELECT * FROM rows_media",
    "SELECT * FROM rows_tiles",
    "SELECT * FROM sheet_identity",
    "SELECT * FROM sheet_items",
    "SELECT * FROM sheet_media",
    "SELECT * FROM sheet_package",
    "SELECT * FROM sheet_receipts",
    "SELECT * FROM sheet_rows",
    "SELECT * FROM sheet_tiles",
    "SELECT * FROM sqlite_sequence",
    "SELECT * FROM tiles_media",
];

fn push_digest(digest: Option<[u8; 32]>, text: &mut String) -> Result<(), AllocError> {
    match digest {
        Some(digest) => {
            let mut digits = [0; 64];
            text.push_str(spell(&digest, &mut digits))
        }
        None => text.push('-'),
    }
}

fn push_thing(alloc: Global, thing: &Moved, text: &mut String) -> Result<(), AllocError> {
    let (kind, base, other) = (thing.kind.number(), number(thing.base), end(thing.other));
    text.push_str(format!(in alloc; "{kind} {base} {other} {} ", thing.size)?.as_str())?;
    push_digest(thing.fingerprint, text)?;
    text.push('\n')
}

fn push_ends(alloc: Global, receipt: &Receipt, text: &mut String) -> Result<(), AllocError> {
    let (source, target) = (end(receipt.source), end(receipt.target));
    text.push_str(format!(in alloc; "{} {source} {target} ", receipt.seq)?.as_str())
}

fn push_words(receipt: &Receipt, text: &mut String) -> Result<(), AllocError> {
    let mut buffer = Uuid::encode_buffer();
    text.push_str(receipt.request.hyphenated().encode_lower(&mut buffer))?;
    text.push(' ')?;
    text.push_str(receipt.at.as_str())?;
    text.push(' ')?;
    text.push_str(receipt.line.as_str())?;
    text.push('\n')
}

fn push_receipt(alloc: Global, receipt: &Receipt, text: &mut String) -> Result<(), AllocError> {
    push_ends(alloc, receipt, text)?;
    push_sums(alloc, counts(receipt), text)?;
    push_words(receipt, text)?;
    for thing in receipt.items.as_slice() {
        push_thing(alloc, thing, text)?;
    }
    Ok(())
}

/// The receipt, or the name of the reason. Answers the number of the receipt, or below zero that of the reason.
pub fn push_reply(
    alloc: Global,
    reply: &Result<Receipt, Refusal>,
    text: &mut String,
) -> Result<i64, Fault> {
    match reply {
        Ok(receipt) => push_receipt(alloc, receipt, text)?,
        Err(why) => text.push_str(why.name())?,
    }
    Ok(told(reply))
}

fn push_kept(alloc: Global, kept: &Option<Receipt>, text: &mut String) -> Result<(), Fault> {
    match kept {
        Some(receipt) => Ok(push_receipt(alloc, receipt, text)?),
        None => Ok(text.push('-')?),
    }
}

// The items by their numbers and the links of a package, in one line.
fn push_held(
    alloc: Global,
    items: &[Item],
    links: &[Relation],
    text: &mut String,
) -> Result<(), AllocError> {
    text.push_str("held ")?;
    for item in items {
        text.push_str(format!(in alloc; "{};", number(item.identity))?.as_str())?;
    }
    text.push_str(links_text(alloc, links)?.as_str())?;
    text.push_str("|\n")
}

// The same, and the items with the digests of their contents.
fn push_holdings(
    alloc: Global,
    items: &[Item],
    links: &[Relation],
    text: &mut String,
) -> Result<(), Fault> {
    push_held(alloc, items, links, text)?;
    for item in items {
        push_thing(alloc, &Moved::of_item(item), text)?;
    }
    Ok(())
}

fn push_row(alloc: Global, row: &Row, text: &mut String) -> Result<(), AllocError> {
    text.push_str(format!(in alloc; "{row:?}\n")?.as_str())
}

fn push_table<S: Alter>(
    alloc: Global,
    conn: &mut Connection<S>,
    table: &str,
    text: &mut String,
) -> Result<(), Fault> {
    for row in &conn.query_all(table, &[])? {
        push_row(alloc, row, text)?;
    }
    Ok(())
}

fn push_package<S: Alter>(
    alloc: Global,
    conn: &mut Connection<S>,
    text: &mut String,
) -> Result<(), Fault> {
    at_rest(conn)?;
    for head in &all_heads(conn, alloc)? {
        text.push_str(head.package.as_str())?;
    }
    Ok(text.push('\n')?)
}

/// Of one store: the items, with the digests of their contents, and the links.
pub fn push_held_by<S: Alter>(
    alloc: Global,
    conn: &mut Connection<S>,
    text: &mut String,
) -> Result<(), Fault> {
    at_rest(conn)?;
    let (items, links) = holdings(conn, alloc)?;
    push_holdings(alloc, &items, &links, text)
}

fn push_kept_by<S: Alter>(
    alloc: Global,
    conn: &mut Connection<S>,
    id: Uuid,
    text: &mut String,
) -> Result<(), Fault> {
    at_rest(conn)?;
    let kept = find_receipt(conn, alloc, id)?;
    push_kept(alloc, &kept, text)
}

/// A store of a world: its package in the first line; the items, the links, the receipt of a
/// request, and each row of each table.
pub fn push_store<S: Alter>(
    alloc: Global,
    conn: &mut Connection<S>,
    id: Uuid,
    text: &mut String,
) -> Result<(), Fault> {
    push_package(alloc, conn, text)?;
    push_held_by(alloc, conn, text)?;
    push_kept_by(alloc, conn, id, text)?;
    for table in TABLES.as_slice() {
        push_table(alloc, conn, table, text)?;
    }
    Ok(())
}

fn push_held_in<S: Alter + Drop>(
    alloc: Global,
    world: &mut World<S>,
    package: Uuid,
    text: &mut String,
) -> Result<(), Fault> {
    match world.holdings(alloc, package)? {
        Some((items, links)) => push_holdings(alloc, &items, &links, text),
        None => Err(Fault::StoreFault),
    }
}

fn push_kept_in<S: Alter + Drop>(
    alloc: Global,
    world: &mut World<S>,
    id: Uuid,
    text: &mut String,
) -> Result<(), Fault> {
    let kept = world.receipt(alloc, id)?;
    push_kept(alloc, &kept, text)
}

/// Each live package with its parent and its ticket, the items, the links, and the receipt of a request.
pub fn push_world<S: Alter + Drop>(
    alloc: Global,
    world: &mut World<S>,
    id: Uuid,
    text: &mut String,
) -> Result<(), Fault> {
    let sights = world.packages(alloc)?;
    push_sights(alloc, &sights, text)?;
    for sight in &sights {
        push_held_in(alloc, world, sight.uuid, text)?;
    }
    push_kept_in(alloc, world, id, text)
}
