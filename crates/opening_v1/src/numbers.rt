//! Whether rows stand under numbers that a package may have: none of those is below zero.
ghost use Rattle.std.specs.Prelude.{◌≡◌, ◌&&◌};
ghost use Rattle.std.specs.List.{list_all};
ghost use Rattle.opening_v1.specs.Numbers.{have_item_numbers, have_link_numbers, have_receipt_numbers, have_numbers};
ghost use Rattle.opening_v1.specs.Numbers.{is_number};

use package_copy::package_rows::PackageRows;
use package_tables::rows::{
    AttributeRow, IdentityRow, MappingRow, MediaRow, MovedRow, ReceiptRow, TileRow,
};

/// Whether a number is not below zero.
fn is_number(number: i64) -> bool
    ensures { result ≡ is_number number }
{
    0 <= number
}

fn have_tile_numbers(rows: &[TileRow]) -> bool
    ensures { result ≡ list_all (λ r. is_number r.id) rows.now }
{
    rows.iter().all(|row| is_number(row.id))
}

fn have_medium_numbers(rows: &[MediaRow]) -> bool
    ensures { result ≡ list_all (λ r. is_number r.id) rows.now }
{
    rows.iter().all(|row| is_number(row.id))
}

fn have_attribute_numbers(rows: &[AttributeRow]) -> bool
    ensures { result ≡ list_all (λ r. is_number r.id) rows.now }
{
    rows.iter().all(|row| is_number(row.id))
}

fn have_pair_numbers(rows: &[MappingRow]) -> bool
    ensures { result ≡ list_all (λ r. is_number r.base_id && is_number r.related_id) rows.now }
{
    rows.iter()
        .all(|row| is_number(row.base_id) && is_number(row.related_id))
}

fn have_identity_numbers(rows: &[IdentityRow]) -> bool
    ensures { result ≡ list_all (λ r. is_number r.kind && is_number r.local_id) rows.now }
{
    rows.iter()
        .all(|row| is_number(row.kind) && is_number(row.local_id))
}

fn have_seq_numbers(rows: &[ReceiptRow]) -> bool
    ensures { result ≡ list_all (λ r. is_number r.seq) rows.now }
{
    rows.iter().all(|row| is_number(row.seq))
}

fn have_moved_numbers(rows: &[MovedRow]) -> bool
    ensures { result ≡ list_all (λ r. is_number r.seq && is_number r.position) rows.now }
{
    rows.iter()
        .all(|row| is_number(row.seq) && is_number(row.position))
}

fn have_item_numbers(rows: &PackageRows) -> bool
    ensures { result ≡ have_item_numbers rows.now }
{
    have_tile_numbers(rows.tiles.as_slice())
        && have_medium_numbers(rows.media.as_slice())
        && have_attribute_numbers(rows.rows.as_slice())
        && have_identity_numbers(rows.identities.as_slice())
}

fn have_link_numbers(rows: &PackageRows) -> bool
    ensures { result ≡ have_link_numbers rows.now }
{
    have_pair_numbers(rows.tiles_media.as_slice()) && have_pair_numbers(rows.rows_media.as_slice())
}

fn have_receipt_numbers(rows: &PackageRows) -> bool
    ensures { result ≡ have_receipt_numbers rows.now }
{
    have_seq_numbers(rows.receipts.as_slice()) && have_moved_numbers(rows.moved.as_slice())
}

/// Whether no row stands under a number below zero.
pub(crate) fn have_numbers(rows: &PackageRows) -> bool
    ensures { result ≡ have_numbers rows.now }
{
    have_item_numbers(rows) && have_link_numbers(rows) && have_receipt_numbers(rows)
}
