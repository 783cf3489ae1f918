//! What a store says of itself, as the opening takes it.
ghost use Rattle.std.specs.Prelude.{◌≡◌, map, option_map, IfOk};
ghost use Rattle.sqlite.specs.Held.{state};
ghost use Rattle.store_sql.specs.Transactions.{Rests};
ghost use Rattle.opening_faults.specs.Sights as opening;
ghost use Rattle.package_schema.specs.Heads.{head_said};
ghost use Rattle.package_schema.specs.Looking.{LooksAt};
ghost use Rattle.opening_survey.specs.Surveying.{claim_told, passages_told, IsSaid};

use opening_faults::claiming::is_passage;
use opening_faults::sights::{StoreClaim, StoreHead};
use package_schema::claims::{StoreClaim as ReadClaim, claims};
use package_schema::heads::{StoreHead as ReadHead, head};
use package_tables::fault::Fault;
use sqlite::{Alter, Connection};
use std::alloc::{AllocError, Global};

/// Whose a store is, and what its splits and merges claim. Nothing that an opening tells depends on
/// another claim, so of many thousand receipts none of the others stays in memory.
#[derive(Drop)]
pub struct Said {
    pub head: Option<StoreHead>,
    pub claims: Vec<StoreClaim>,
}

/// The head in the words of the opening.
fn head_of(head: ReadHead) -> StoreHead
    ensures { opening.head_said result ≡ head_said head }
{
    StoreHead {
        uuid: head.uuid,
        parent: head.parent,
        depth: head.depth,
        loan: head.loan,
    }
}

/// The same of a head that may be none.
pub fn head_told(found: Option<ReadHead>) -> Option<StoreHead>
    ensures { option_map opening.head_said result ≡ option_map head_said found }
{
    match found {
        Some(head) => Some(head_of(head)),
        None => None,
    }
}

/// A claim in the words of the opening.
fn claim_of(claim: ReadClaim) -> StoreClaim
    ensures { result ≡ claim_told claim }
{
    StoreClaim {
        seq: claim.seq,
        line: claim.line,
        source: claim.source,
        target: claim.target,
    }
}

/// The claims in the words of the opening.
///
/// # Errors
///
/// Want of memory.
pub fn claims_of(alloc: Global, claims: Vec<ReadClaim>) -> Result<Vec<StoreClaim>, AllocError>
    ensures { IfOk result (λ told. told.items ≡ map claim_told claims.items) }
{
    claims
        .into_iter()
        .map(|claim| claim_of(claim))
        .collect(alloc)
}

/// The splits and merges among the claims, in the words of the opening. The others are let go.
///
/// # Errors
///
/// Want of memory.
pub fn passages_of(alloc: Global, claims: Vec<ReadClaim>) -> Result<Vec<StoreClaim>, AllocError>
    ensures { IfOk result (λ told. told.items ≡ passages_told claims.items) }
{
    claims
        .into_iter()
        .map(|claim| claim_of(claim))
        .filter(|claim| is_passage(claim))
        .collect(alloc)
}

/// Whose the store is, and what its splits and merges claim.
///
/// # Errors
///
/// Those of the two looks.
pub(crate) fn read_said<S: Alter>(conn: &mut Connection<S>, alloc: Global) -> Result<Said, Fault>
    requires { Rests (state S.Store conn.old) }
    ensures { LooksAt IsSaid (state S.Store conn.old) (state S.Store conn.new) result }
{
    let found = head(conn, alloc)?;
    let read = claims(conn, alloc)?;
    let told = passages_of(alloc, read)?;
    Ok(Said {
        head: head_told(found),
        claims: told,
    })
}
