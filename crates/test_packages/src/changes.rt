// What is done to the items and links of a package, and the receipts that come into it. An identity
// is a small number here.

use crate::lines::{Line, text_of, two_texts};
use custody::enter;
use identity_register::additions::add;
use identity_register::changes::{delete, link, unlink};
use identity_register::dating::date_contents;
use package_tables::fault::Fault;
use sheet_types::command::{Content, Mapping, Relation};
use sqlite::{Alter, Transaction};
use std::alloc::Global;
use test_values::{
    Change, ONE_MEDIUM, medium_content, moved_medium, receipt_of, row_content, tile_content,
};
use uuid::Uuid;

fn natural(number: i64) -> u64 {
    u64::try_from(number).unwrap_or(0)
}

fn id(number: i64) -> Uuid {
    Uuid::from_u128(u128::from(natural(number)))
}

// Of a tile its zoom, column and row, and its bytes; of a medium the type of its bytes, and they;
// of a row its point, code and label.
fn content(a: Global, line: Line) -> Result<Content, Fault> {
    let n = line.n;
    match line.kind {
        "tile" => tile_content(a, [n[1], n[2], n[3]], text_of(line.text).as_bytes()),
        "medium" => {
            let (content_type, bytes) = two_texts(line.text);
            medium_content(a, content_type, bytes.as_bytes())
        }
        "row" => row_content(a, [n[1], n[2]], n[3], text_of(line.text)),
        _ => Err(Fault::StoreFault),
    }
}

fn mapping_of(word: &str) -> Mapping {
    match word {
        "rows_media" => Mapping::RowsMedia,
        "rows_tiles" => Mapping::RowsTiles,
        _ => Mapping::TilesMedia,
    }
}

fn relation(line: Line) -> Relation {
    Relation::new(mapping_of(line.kind), id(line.n[0]), id(line.n[1]))
}

/// A change by one call, with the allocator that its content takes.
#[derive(Drop)]
pub(crate) struct Done(pub Global, pub Line);

impl<S: Alter> Change<S> for Done {
    fn make(&self, tx: &mut Transaction<'_, S>) -> Result<(), Fault> {
        let line = self.1;
        match line.name {
            "add" => add(tx, id(line.n[0]), &content(self.0, line)?),
            "delete" => delete(tx, id(line.n[0])),
            "link" => link(tx, relation(line)),
            "unlink" => unlink(tx, relation(line)),
            _ => date_contents(tx, line.text),
        }
    }
}

/// A receipt of a medium that came to package 1, by its number, its request and the medium.
#[derive(Drop)]
pub(crate) struct Entered(pub Global, pub Line);

impl<S: Alter> Change<S> for Entered {
    fn make(&self, tx: &mut Transaction<'_, S>) -> Result<(), Fault> {
        let n = self.1.n;
        let thing = moved_medium(id(n[2]));
        let receipt = receipt_of(self.0, natural(n[0]), id(n[1]), id(1), thing, ONE_MEDIUM)?;
        enter(tx, &receipt)
    }
}
