//! Rows of the tables of a package as data: each call that puts one in stands here once, so what a
//! test puts in costs no proof of a call.

use crate::changes::Change;
use package_creation::schema::create_schema;
use package_tables::attributes::{delete_attribute, insert_attribute};
use package_tables::fault::Fault;
use package_tables::identities::{delete_identity, insert_identity};
use package_tables::mappings::{delete_pair, insert_pair};
use package_tables::media::{delete_medium, insert_medium};
use package_tables::moved::insert_moved;
use package_tables::receipts::insert_receipt;
use package_tables::tiles::{delete_tile, insert_tile};
use sheet_types::command::Mapping;
use sqlite::{Alter, Transaction};

/// A row that comes into its table, or goes. Its columns stand in their order, those of one type together.
#[derive(Clone, Copy)]
pub enum Row {
    /// A tile: its number, its zoom, column and row, and its bytes.
    Tile(i64, [i64; 3], &'static str),
    /// A medium: its number, its bytes, and their type.
    Medium(i64, &'static str, &'static str),
    /// A row at a point: its number, x, y and code, and its label.
    Attribute(i64, [i64; 3], &'static str),
    /// The numbers that a mapping relates.
    Pair(Mapping, i64, i64),
    /// The kind and the number of an item, and its UUID.
    Identity(i64, i64, &'static str),
    /// A receipt: its number, its texts and its five counts.
    Receipt {
        seq: i64,
        request: &'static str,
        at: &'static str,
        line: &'static str,
        source: &'static str,
        target: &'static str,
        counts: [i64; 5],
    },
    /// What a receipt moved: the receipt's number, the position and the kind; both ends; the size, and the digest.
    Moved([i64; 3], &'static str, &'static str, i64, &'static str),
    /// A tile that goes.
    NoTile(i64),
    /// A medium that goes.
    NoMedium(i64),
    /// A row at a point that goes.
    NoAttribute(i64),
    /// A pair that goes.
    NoPair(Mapping, i64, i64),
    /// An identity that goes.
    NoIdentity(i64, i64),
}

// A row of an item, or of what relates items.
fn put_item<S: Alter>(tx: &mut Transaction<'_, S>, row: Row) -> Result<(), Fault> {
    match row {
        Row::Tile(id, at, bytes) => insert_tile(tx, id, at[0], at[1], at[2], bytes.as_bytes()),
        Row::Medium(id, bytes, content_type) => insert_medium(
            tx,
            id,
            bytes.as_bytes(),
            content_type,
        ),
        Row::Attribute(id, is, label) => insert_attribute(tx, id, is[0], is[1], is[2], label),
        Row::Pair(mapping, base, related) => insert_pair(tx, mapping, base, related),
        Row::Identity(kind, id, uuid) => insert_identity(tx, kind, id, uuid),
        _ => Ok(()),
    }
}

fn put_receipt<S: Alter>(tx: &mut Transaction<'_, S>, row: Row) -> Result<(), Fault> {
    match row {
        Row::Receipt {
            seq,
            request,
            at,
            line,
            source,
            target,
            counts: n,
        } => insert_receipt(
            tx, seq, request, at, line, source, target, n[0], n[1], n[2], n[3], n[4],
        ),
        Row::Moved(at, base, other, size, digest) => {
            insert_moved(tx, at[0], at[1], at[2], base, other, size, digest)
        }
        _ => Ok(()),
    }
}

fn take<S: Alter>(tx: &mut Transaction<'_, S>, row: Row) -> Result<(), Fault> {
    match row {
        Row::NoTile(id) => delete_tile(tx, id),
        Row::NoMedium(id) => delete_medium(tx, id),
        Row::NoAttribute(id) => delete_attribute(tx, id),
        Row::NoPair(mapping, base, related) => delete_pair(tx, mapping, base, related),
        Row::NoIdentity(kind, id) => delete_identity(tx, kind, id),
        _ => Ok(()),
    }
}

/// Rows that come and go in turn.
#[derive(Drop)]
pub struct Rows<'a>(pub &'a [Row]);

impl<'a, S: Alter> Change<S> for Rows<'a> {
    fn make(&self, tx: &mut Transaction<'_, S>) -> Result<(), Fault> {
        for row in self.0 {
            put_item(tx, *row)?;
            put_receipt(tx, *row)?;
            take(tx, *row)?;
        }
        Ok(())
    }
}

/// The tables of a package, and rows in them.
#[derive(Drop)]
pub struct Tables<'a>(pub &'a [Row]);

impl<'a, S: Alter> Change<S> for Tables<'a> {
    fn make(&self, tx: &mut Transaction<'_, S>) -> Result<(), Fault> {
        create_schema(tx)?;
        Rows(self.0).make(tx)
    }
}
