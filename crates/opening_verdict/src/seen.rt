//! What was seen of a store.
ghost use Rattle.std.specs.Prelude.{IfOk};
ghost use Rattle.opening_verdict.specs.Parts.{IsEmpty, IsPushed, ArePartsOf};

use opening_faults::sights::Sight;
use sheet_balance::sights::Sight as PackageSight;
use sheet_types::error::OutOfMemory;
use std::alloc::{AllocError, Global};

/// What was seen of a store: what it says of itself, whether it is a package, and which.
#[derive(Drop)]
pub struct StoreSeen {
    /// Head, claims and frame.
    pub sight: Sight,
    /// Whether all its tables have their form, with fixed rows of a good frame and values in their ranges.
    pub is_formed: bool,
    /// Whether rows and identities answer to each other, and mapping rows to rows. It counts only
    /// where the store is formed.
    pub is_tied: bool,
    /// Its package. It counts only where the store is formed and tied.
    pub held: PackageSight,
}

/// What was seen of stores, part by part, each in the order of the stores.
#[derive(Drop)]
pub(crate) struct Parts {
    pub sights: Vec<Sight>,
    pub formed: Vec<bool>,
    pub tied: Vec<bool>,
    pub held: Vec<PackageSight>,
}

// An empty list of each part.
fn no_parts(alloc: Global) -> Parts
    ensures { IsEmpty result }
{
    Parts {
        sights: Vec::new(alloc),
        formed: Vec::new(alloc),
        tied: Vec::new(alloc),
        held: Vec::new(alloc),
    }
}

// Puts a store behind the others.
fn push_store(parts: &mut Parts, store: StoreSeen) -> Result<(), AllocError>
    ensures { IfOk result (λ _. IsPushed parts.old store parts.new) }
{
    parts.sights.push(store.sight)?;
    parts.formed.push(store.is_formed)?;
    parts.tied.push(store.is_tied)?;
    parts.held.push(store.held)?;
    Ok(())
}

/// The parts of what was seen.
///
/// # Errors
///
/// Want of memory.
pub(crate) fn parts_of(alloc: Global, seen: Vec<StoreSeen>) -> Result<Parts, OutOfMemory>
    ensures { IfOk result (λ parts. ArePartsOf parts seen.items) }
{
    let mut parts = no_parts(alloc);
    for store in seen {
        push_store(&mut parts, store)?;
    }
    Ok(parts)
}
