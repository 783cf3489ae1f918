//! The least loan that is not at home.
ghost use Rattle.std.specs.Prelude.{◌≡◌, ◌++◌, ◌∷◌, [], IfOk, IfSome, IfNone};
ghost use Rattle.std.specs.Option.{option_map_or};
ghost use Rattle.sheet_types.specs.Opening.{IsLeast, IsNever};
ghost use Rattle.opening_faults.specs.Foreign.{Adds, IsForeignOf, IsForeignIn, IsForeign};
ghost use Rattle.opening_faults.specs.Sights.{is_loan_of, ForeignFrame};
ghost use Rattle.opening_faults.specs.Splits.{AreOpenSplits, claim_made};

use crate::archives::archive_of;
use crate::claiming::{is_number_of, is_text_of};
use crate::homes::is_apart;
use crate::least::least_of;
use crate::sights::Sight;
use crate::splits::OpenSplit;
use sheet_types::error::OutOfMemory;
use std::alloc::{AllocError, Global};
use uuid::Uuid;

/// The least UUID of a loan of an open split whose frame is not the archive's, or that does not
/// stand one level below the store of the split.
///
/// # Errors
///
/// Want of memory.
pub fn least_foreign(
    alloc: Global,
    sights: &[Sight],
    splits: &[OpenSplit],
) -> Result<Option<Uuid>, OutOfMemory>
    requires { AreOpenSplits sights.now splits.now }
    ensures some { IfOk result (λ least. IfSome least (λ id. IsLeast (ForeignFrame sights.now) id)) }
    ensures none { IfOk result (λ least. IfNone least (IsNever (ForeignFrame sights.now))) }
{
    match archive_of(sights) {
        Some(root) => {
            let least = foreign_to(alloc, root, sights, splits)?;
            Ok(least)
        }
        None => Ok(None),
    }
}

// The least of those that are not at home under this archive.
fn foreign_to(
    alloc: Global,
    root: &Sight,
    sights: &[Sight],
    splits: &[OpenSplit],
) -> Result<Option<Uuid>, OutOfMemory>
    ensures some { IfOk result (λ least. IfSome least (λ id. IsLeast (IsForeign root.now sights.now splits.now) id)) }
    ensures none { IfOk result (λ least. IfNone least (IsNever (IsForeign root.now sights.now splits.now))) }
{
    let ids = foreign_ids(alloc, root, sights, splits)?;
    Ok(least_of(ids.as_slice()))
}

// The UUIDs of those that are not at home.
fn foreign_ids(
    alloc: Global,
    root: &Sight,
    sights: &[Sight],
    splits: &[OpenSplit],
) -> Result<Vec<Uuid>, AllocError>
    ensures { IfOk result (λ ids. Adds (IsForeign root.now sights.now splits.now) [] ids.items) }
{
    let mut ids = Vec::new(alloc);
    for split in splits {
        push_foreign(&mut ids, root, sights, split)?;
    }
    Ok(ids)
}

// Puts the UUIDs of the loans of a split that are not at home behind the others.
fn push_foreign(
    ids: &mut Vec<Uuid>,
    root: &Sight,
    sights: &[Sight],
    split: &OpenSplit,
) -> Result<(), AllocError>
    ensures { IfOk result (λ _. Adds (IsForeignIn root.now sights.now split.now) ids.old.items ids.new.items) }
{
    for sight in sights {
        push_apart(ids, root, sight, split)?;
    }
    Ok(())
}

// Puts the UUID of a store behind the others, where it is the loan of the split and is not at home.
fn push_apart(
    ids: &mut Vec<Uuid>,
    root: &Sight,
    sight: &Sight,
    split: &OpenSplit,
) -> Result<(), AllocError>
    ensures { IfOk result (λ _. Adds (IsForeignOf root.now split.now sight.now) ids.old.items ids.new.items) }
{
    if !is_made_by(split, sight) {
        return Ok(());
    }
    if !is_apart(root, &split.above, sight) {
        return Ok(());
    }
    push_uuid(ids, sight)?;
    Ok(())
}

// Puts the UUID of a store behind the others, where it has a head.
fn push_uuid(ids: &mut Vec<Uuid>, sight: &Sight) -> Result<(), AllocError>
    ensures { IfOk result (λ _. ids.new.items ≡ ids.old.items
        ++ option_map_or (λ h. h.uuid ∷ []) sight.now.head []) }
{
    let Some(head) = &sight.head else {
        return Ok(());
    };
    ids.push(head.uuid)?;
    Ok(())
}

// Whether a store is the loan that a split made.
fn is_made_by(split: &OpenSplit, sight: &Sight) -> bool
    ensures { result ≡ is_loan_of (claim_made split.now) sight.now }
{
    match &sight.head {
        Some(head) => {
            is_text_of(head.uuid, split.target.as_str()) && is_number_of(head.loan, split.seq)
        }
        None => false,
    }
}
