//! Rows that come into the empty tables of a package, each table in the order of its key.
ghost use Rattle.std.specs.Prelude.{◌≡◌, [], IsTrue};
ghost use Rattle.sqlite.specs.Held.{state};
ghost use Rattle.store_sql.specs.Transactions.{Steps};
ghost use Rattle.sheet_types.specs.Ordered.{is_before, IsArranged};
ghost use Rattle.package_tables.specs.Calls.{OnTables};
ghost use Rattle.package_tables.specs.Changes.{Adds, ListBecomes};
ghost use Rattle.package_tables.specs.Listed.{pairs};
ghost use Rattle.package_tables.specs.Shapes.{number_key, pair_key};

use package_tables::attributes::insert_attribute;
use package_tables::fault::Fault;
use package_tables::identities::insert_identity;
use package_tables::mappings::insert_pair;
use package_tables::media::insert_medium;
use package_tables::moved::insert_moved;
use package_tables::receipts::insert_receipt;
use package_tables::rows::{
    AttributeRow, IdentityRow, MappingRow, MediaRow, MovedRow, ReceiptRow, TileRow,
};
use package_tables::tiles::insert_tile;
use sheet_types::command::Mapping;
use sqlite::{Alter, Transaction};

/// Whether a number stands before another as the key of a row, which tells how far it is from 0.
fn number_is_before(number: i64, next: i64) -> bool
    ensures { result ≡ is_before (number_key number) (number_key next) }
{
    [number.unsigned_abs()]
        .as_slice()
        .cmp([next.unsigned_abs()].as_slice())
        .is_lt()
}

/// The same of two numbers.
fn pair_is_before(pair: (i64, i64), next: (i64, i64)) -> bool
    ensures { result ≡ is_before (pair_key pair.0 pair.1) (pair_key next.0 next.1) }
{
    [pair.0.unsigned_abs(), pair.1.unsigned_abs()]
        .as_slice()
        .cmp([next.0.unsigned_abs(), next.1.unsigned_abs()].as_slice())
        .is_lt()
}

/// A row of a table that has a list of its own in a package's tables.
pub(crate) trait Entered: Drop {
    ghost use Rattle.package_tables.specs.Listed.{Listed};
    ghost use Rattle.package_tables.proofs.Lists.{IsListed};

    ghost list: { Listed Self };

    /// Whether its key stands before that of another.
    fn is_before(&self, next: &Self) -> bool
        ensures { result ≡ is_before (list.shape.key self.now) (list.shape.key next.now) };

    /// Enters it, under a key that is free.
    fn enter<S: Alter>(&self, tx: &mut Transaction<'_, S>) -> Result<(), Fault>
        ensures same_reference { tx.new.conn.ghost_name ≡ tx.old.conn.ghost_name }
        ensures steps { Steps (λ _. OnTables (Adds list self.now)) (state S.Store tx.old.conn.now)
            (state S.Store tx.new.conn.now) result };

    ghost listed: { IsListed list };
}

impl Entered for TileRow {
    ghost use Rattle.package_tables.specs.Listed.{tiles};
    ghost use Rattle.package_tables.proofs.Written.{tiles_listed};

    ghost list = { tiles };

    ghost listed = { tiles_listed };

    fn is_before(&self, next: &TileRow) -> bool {
        number_is_before(self.id, next.id)
    }

    fn enter<S: Alter>(&self, tx: &mut Transaction<'_, S>) -> Result<(), Fault> {
        insert_tile(
            tx,
            self.id,
            self.zoom_level,
            self.tile_column,
            self.tile_row,
            self.tile_data.as_slice(),
        )
    }
}

impl Entered for MediaRow {
    ghost use Rattle.package_tables.specs.Listed.{media};
    ghost use Rattle.package_tables.proofs.Written.{media_listed};

    ghost list = { media };

    ghost listed = { media_listed };

    fn is_before(&self, next: &MediaRow) -> bool {
        number_is_before(self.id, next.id)
    }

    fn enter<S: Alter>(&self, tx: &mut Transaction<'_, S>) -> Result<(), Fault> {
        insert_medium(
            tx,
            self.id,
            self.data.as_slice(),
            self.content_type.as_str(),
        )
    }
}

impl Entered for AttributeRow {
    ghost use Rattle.package_tables.specs.Listed.{attributes};
    ghost use Rattle.package_tables.proofs.Written.{attributes_listed};

    ghost list = { attributes };

    ghost listed = { attributes_listed };

    fn is_before(&self, next: &AttributeRow) -> bool {
        number_is_before(self.id, next.id)
    }

    fn enter<S: Alter>(&self, tx: &mut Transaction<'_, S>) -> Result<(), Fault> {
        insert_attribute(tx, self.id, self.x, self.y, self.code, self.label.as_str())
    }
}

impl Entered for IdentityRow {
    ghost use Rattle.package_tables.specs.Listed.{identities};
    ghost use Rattle.package_tables.proofs.Written.{identities_listed};

    ghost list = { identities };

    ghost listed = { identities_listed };

    fn is_before(&self, next: &IdentityRow) -> bool {
        pair_is_before((self.kind, self.local_id), (next.kind, next.local_id))
    }

    fn enter<S: Alter>(&self, tx: &mut Transaction<'_, S>) -> Result<(), Fault> {
        insert_identity(tx, self.kind, self.local_id, self.uuid.as_str())
    }
}

impl Entered for ReceiptRow {
    ghost use Rattle.package_tables.specs.Listed.{receipts};
    ghost use Rattle.package_tables.proofs.Written.{receipts_listed};

    ghost list = { receipts };

    ghost listed = { receipts_listed };

    fn is_before(&self, next: &ReceiptRow) -> bool {
        number_is_before(self.seq, next.seq)
    }

    fn enter<S: Alter>(&self, tx: &mut Transaction<'_, S>) -> Result<(), Fault> {
        insert_receipt(
            tx,
            self.seq,
            self.request.as_str(),
            self.at.as_str(),
            self.line.as_str(),
            self.source.as_str(),
            self.target.as_str(),
            self.n_tiles,
            self.n_media,
            self.n_rows,
            self.n_links,
            self.n_bytes,
        )
    }
}

impl Entered for MovedRow {
    ghost use Rattle.package_tables.specs.Listed.{moved};
    ghost use Rattle.package_tables.proofs.Written.{moved_listed};

    ghost list = { moved };

    ghost listed = { moved_listed };

    fn is_before(&self, next: &MovedRow) -> bool {
        pair_is_before((self.seq, self.position), (next.seq, next.position))
    }

    fn enter<S: Alter>(&self, tx: &mut Transaction<'_, S>) -> Result<(), Fault> {
        insert_moved(
            tx,
            self.seq,
            self.position,
            self.kind,
            self.base.as_str(),
            self.other.as_str(),
            self.size,
            self.fingerprint.as_str(),
        )
    }
}

/// Whether rows are in the order of their keys, no two under one.
pub(crate) fn are_in_order<T: Entered>(rows: &[T]) -> bool
    ensures { IsTrue result → IsArranged T.list.shape.key rows.now }
{
    for at in 1..rows.len() {
        if !rows[at - 1].is_before(&rows[at]) {
            return false;
        }
    }
    true
}

/// Whether a mapping row stands before another.
fn is_mapped_before(row: &MappingRow, next: &MappingRow) -> bool
    ensures { result ≡ is_before (pair_key row.now.base_id row.now.related_id)
        (pair_key next.now.base_id next.now.related_id) }
{
    pair_is_before(
        (row.base_id, row.related_id),
        (next.base_id, next.related_id),
    )
}

/// The same of mapping rows.
pub(crate) fn are_pairs_in_order(rows: &[MappingRow]) -> bool
    ensures { IsTrue result → IsArranged (λ x. pair_key x.base_id x.related_id) rows.now }
{
    for at in 1..rows.len() {
        if !is_mapped_before(&rows[at - 1], &rows[at]) {
            return false;
        }
    }
    true
}

/// Enters rows that are in order into their table, which has none.
pub(crate) fn enter_all<T: Entered, S: Alter>(
    tx: &mut Transaction<'_, S>,
    rows: &[T],
) -> Result<(), Fault>
    requires { IsArranged T.list.shape.key rows.now }
    ensures same_reference { tx.new.conn.ghost_name ≡ tx.old.conn.ghost_name }
    ensures steps { Steps (λ _. OnTables (ListBecomes T.list [] rows.now)) (state S.Store tx.old.conn.now)
        (state S.Store tx.new.conn.now) result }
{
    for row in rows {
        row.enter(tx)?;
    }
    Ok(())
}

/// Enters a mapping row, of two numbers that are not yet related.
fn enter_pair<S: Alter>(
    tx: &mut Transaction<'_, S>,
    mapping: Mapping,
    row: &MappingRow,
) -> Result<(), Fault>
    ensures same_reference { tx.new.conn.ghost_name ≡ tx.old.conn.ghost_name }
    ensures steps { Steps (λ _. OnTables (Adds (pairs mapping) row.now)) (state S.Store tx.old.conn.now)
        (state S.Store tx.new.conn.now) result }
{
    insert_pair(tx, mapping, row.base_id, row.related_id)
}

/// The same of mapping rows.
pub(crate) fn enter_pairs<S: Alter>(
    tx: &mut Transaction<'_, S>,
    mapping: Mapping,
    rows: &[MappingRow],
) -> Result<(), Fault>
    requires { IsArranged (λ x. pair_key x.base_id x.related_id) rows.now }
    ensures same_reference { tx.new.conn.ghost_name ≡ tx.old.conn.ghost_name }
    ensures steps { Steps (λ _. OnTables (ListBecomes (pairs mapping) [] rows.now)) (state S.Store tx.old.conn.now)
        (state S.Store tx.new.conn.now) result }
{
    for row in rows {
        enter_pair(tx, mapping, row)?;
    }
    Ok(())
}
