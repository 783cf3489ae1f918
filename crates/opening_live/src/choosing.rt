//! Which packages live, by what all stores say of themselves.
ghost use Rattle.std.specs.Prelude.{◌≡◌, IfOk};
ghost use Rattle.opening_live.specs.Chosen.{flagged, live_packages};

use crate::naming::{all_named, loans_named, those_named};
use opening_faults::reaching::reach;
use opening_faults::sights::Sight;
use sheet_types::error::OutOfMemory;
use std::alloc::{AllocError, Global};
use uuid::Uuid;

/// The packages at whose place a flag stands.
fn flagged_packages(
    alloc: Global,
    packages: &[Uuid],
    flags: &[bool],
) -> Result<Vec<Uuid>, AllocError>
    ensures { IfOk result (λ chosen. chosen.items ≡ flagged flags.now packages.now) }
{
    packages
        .iter()
        .zip(flags.iter())
        .filter(|pair| *pair.1)
        .map(|pair| *pair.0)
        .collect(alloc)
}

/// The packages whose stores live, by what the store of each says of itself, place by place: those of the archive, and
/// of each loan that an open split of one of them names. Those that may live are sorted out first, so that the rounds
/// in which live stores are found do not go over loans that came home.
///
/// # Errors
///
/// Want of memory.
pub fn live_packages(
    alloc: Global,
    packages: &[Uuid],
    sights: Vec<Sight>,
) -> Result<Vec<Uuid>, OutOfMemory>
    ensures { IfOk result (λ chosen. chosen.items ≡ live_packages sights.items packages.now) }
{
    let loans = loans_named(alloc, &sights)?;
    let flags = all_named(alloc, &loans, &sights)?;
    let packages = flagged_packages(alloc, packages, &flags)?;
    let sights = those_named(alloc, &loans, sights)?;
    let reached = reach(alloc, &sights)?;
    let chosen = flagged_packages(alloc, &packages, &reached.live)?;
    Ok(chosen)
}
