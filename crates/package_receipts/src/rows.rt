//! One row at a time: what it says, where it is in its ranges.
ghost use Rattle.std.specs.Prelude.{◌≡◌, ◌↔◌, ℕ, ℤ, true, pos, List, [], IsTrue, IfSome, IfNone};
ghost use Rattle.std.specs.Prelude.{◌≤ℤ◌};
ghost use Rattle.std.specs.List.{AllByRecursion};
ghost use Rattle.std.specs.Option.{option_map_or};
ghost use Rattle.hex.specs.Hex.{encode_lower};
ghost use Rattle.sheet_types.specs.Lines.{IsUuid, is_bytes};
ghost use Rattle.sheet_types.specs.Reading.{optional_uuid_text};
ghost use Rattle.sheet_types.specs.Texts.{is_moment, uuid_text};
ghost use Rattle.identity_register.specs.Reads.{IsFitReceipt, is_fit_end, is_fit_moved, receipt_row};
ghost use Rattle.package_receipts.specs.Ranges.{AreCounts, IsUuidText, IsEndText, IsDigestText, IsReceiptInRange};
ghost use Rattle.package_receipts.specs.Ranges.{IsMovedInRange, is_item_number, is_seq};
ghost use Rattle.package_receipts.specs.Read.{HasSums, IsThingOf, has_parts};

use identity_register::fitting::fits;
use identity_register::kinds::kind_of_number;
use package_tables::rows::{MovedRow, ReceiptRow};
use sheet_types::collections::MovedList;
use sheet_types::fingerprints::read_fingerprint;
use sheet_types::moments::is_moment;
use sheet_types::reading::{read_stored_optional, read_stored_uuid};
use sheet_types::receipt::{Moved, Receipt, Sums};
use uuid::Uuid;

/// The greatest number of a receipt (profile).
const GREATEST_SEQ: i64 = 1_000_000_000;

/// A number that is not below zero.
fn natural_of(number: i64) -> Option<u64>
    ensures counted { IfSome result (λ counted. number ≡ pos counted) }
    ensures none { IfNone result (pos 0 ≤ℤ number → ⊥) }
{
    if number < 0 {
        return None;
    }
    Some(number as u64)
}

/// The UUID of a stored text.
pub(crate) fn uuid_of(text: &str) -> Option<Uuid>
    ensures text { IfSome result (λ id. text.now ≡ uuid_text id) }
    ensures fit { IfSome result IsUuid }
    ensures none { IfNone result (IsUuidText text.now → ⊥) }
{
    let Some(id) = read_stored_uuid(text) else {
        return None;
    };
    fits(id);
    Some(id)
}

/// The UUID of a stored text, which is empty where there is none.
pub(crate) fn end_of(text: &str) -> Option<Option<Uuid>>
    ensures text { IfSome result (λ end. text.now ≡ optional_uuid_text end) }
    ensures fit { IfSome result (λ end. is_fit_end end ≡ true) }
    ensures none { IfNone result (IsEndText text.now → ⊥) }
{
    match read_stored_optional(text) {
        Some(None) => Some(None),
        Some(Some(id)) => {
            fits(id);
            Some(Some(id))
        }
        None => None,
    }
}

// Each byte of an array fits, which no clause can say of it: the walk reads them.
fn bytes_fit<const N: usize>(bytes: &[u8; N])
    ensures { is_bytes N bytes.now ≡ true }
{
    for place in 0..N {
        let _ = bytes[place];
    }
}

/// The digest of a stored text, which is empty where there is none.
fn digest_of(text: &str) -> Option<Option<[u8; 32]>>
    ensures text { IfSome result (λ digest. text.now ≡ option_map_or encode_lower digest []) }
    ensures fit { IfSome result (λ digest. option_map_or (is_bytes 32) digest true ≡ true) }
    ensures empty { IfNone result (text.now ≡ [] → ⊥) }
    ensures none { IfNone result (IsDigestText text.now → ⊥) }
{
    if text.is_empty() {
        return Some(None);
    }
    let Some(digest) = read_fingerprint(text) else {
        return None;
    };
    bytes_fit(&digest);
    Some(Some(digest))
}

/// Whether this is the number of the kind of an item.
fn is_item(kind: i64) -> bool
    ensures { result ≡ is_item_number kind }
{
    1 <= kind && kind <= 3
}

/// Whether an item has a digest and no other end, a link another end and no digest.
fn has_parts(item: bool, other: bool, digest: bool) -> bool
    ensures { result ≡ has_parts item other digest }
{
    if item {
        !other && digest
    } else {
        other && !digest
    }
}

/// The thing that a row says, its ends as they were read; `None` where the row is out of its ranges.
pub(crate) fn thing_of(row: &MovedRow, base: Uuid, other: Option<Uuid>) -> Option<Moved>
    requires base { (row.now.base ≡ uuid_text base) × IsUuid base }
    requires other { (row.now.other ≡ optional_uuid_text other) × (is_fit_end other ≡ true) }
    ensures some { IfSome result (IsThingOf row.now) }
    ensures none { IfNone result (IsMovedInRange row.now → ⊥) }
{
    let Ok(kind) = kind_of_number(row.kind) else {
        return None;
    };
    let Some(size) = natural_of(row.size) else {
        return None;
    };
    let Some(fingerprint) = digest_of(row.fingerprint.as_str()) else {
        return None;
    };
    if !has_parts(is_item(row.kind), other.is_some(), fingerprint.is_some()) {
        return None;
    }
    Some(Moved {
        kind,
        base,
        other,
        size,
        fingerprint,
    })
}

/// Whether a number can be that of a receipt.
fn is_seq(seq: i64) -> bool
    ensures { result ≡ is_seq seq }
{
    1 <= seq && seq <= GREATEST_SEQ
}

/// The counts of a row; `None` where one is below zero.
fn sums_of(row: &ReceiptRow) -> Option<Sums>
    ensures some { IfSome result (HasSums row.now) }
    ensures none { IfNone result (AreCounts row.now → ⊥) }
{
    let Some(tiles) = natural_of(row.n_tiles) else {
        return None;
    };
    let Some(media) = natural_of(row.n_media) else {
        return None;
    };
    let Some(rows) = natural_of(row.n_rows) else {
        return None;
    };
    let Some(links) = natural_of(row.n_links) else {
        return None;
    };
    let Some(bytes) = natural_of(row.n_bytes) else {
        return None;
    };
    Some(Sums {
        tiles,
        media,
        rows,
        links,
        bytes,
    })
}

/// The number of a receipt, its request and its ends.
#[derive(Clone, Copy)]
struct Named {
    seq: u64,
    request: Uuid,
    source: Option<Uuid>,
    target: Option<Uuid>,
}

/// What a row names; `None` where its number, its moment or a name is out of its range.
// What is read of a row stands in values that need no drop, so that the row and its things are
// alive at two exits alone.
fn named_by(row: &ReceiptRow) -> Option<Named>
    ensures seq { IfSome result (λ named. row.now.seq ≡ pos named.seq) }
    ensures request { IfSome result (λ named. row.now.request ≡ uuid_text named.request) }
    ensures source { IfSome result (λ named. row.now.source ≡ optional_uuid_text named.source) }
    ensures target { IfSome result (λ named. row.now.target ≡ optional_uuid_text named.target) }
    ensures request_fit { IfSome result (λ named. IsUuid named.request) }
    ensures source_fit { IfSome result (λ named. is_fit_end named.source ≡ true) }
    ensures target_fit { IfSome result (λ named. is_fit_end named.target ≡ true) }
    ensures low { IfSome result (λ _. is_seq row.now.seq ≡ true) }
    ensures at { IfSome result (λ _. is_moment row.now.at ≡ true) }
    ensures none { IfNone result (IsReceiptInRange row.now → ⊥) }
{
    if !is_seq(row.seq) || !is_moment(row.at.as_str()) {
        return None;
    }
    let Some(seq) = natural_of(row.seq) else {
        return None;
    };
    let Some(request) = uuid_of(row.request.as_str()) else {
        return None;
    };
    let Some(source) = end_of(row.source.as_str()) else {
        return None;
    };
    let Some(target) = end_of(row.target.as_str()) else {
        return None;
    };
    Some(Named {
        seq,
        request,
        source,
        target,
    })
}

/// The receipt of a row, which moved these things; `None` where the row is out of its ranges.
pub(crate) fn receipt_of(row: ReceiptRow, items: MovedList) -> Option<Receipt>
    requires { AllByRecursion (λ m. is_fit_moved m ≡ true) items }
    ensures row { IfSome result (λ receipt. receipt_row receipt ≡ row) }
    ensures fit { IfSome result IsFitReceipt }
    ensures items { IfSome result (λ receipt. receipt.items ≡ items) }
    ensures range { IfSome result (λ _. IsReceiptInRange row) }
    ensures none { IfNone result (IsReceiptInRange row → ⊥) }
{
    let Some(named) = named_by(&row) else {
        return None;
    };
    let Some(sums) = sums_of(&row) else {
        return None;
    };
    Some(Receipt {
        seq: named.seq,
        request: named.request,
        at: row.at,
        line: row.line,
        source: named.source,
        target: named.target,
        items,
        tiles: sums.tiles,
        media: sums.media,
        rows: sums.rows,
        links: sums.links,
        bytes: sums.bytes,
    })
}
