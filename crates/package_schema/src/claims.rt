//! What the receipts of a store claim.
ghost use Rattle.std.specs.Prelude.{◌≡◌, map, unsigned_abs, IfOk};
ghost use Rattle.sqlite.specs.Held.{state};
ghost use Rattle.store_sql.specs.Transactions.{Rests};
ghost use Rattle.sheet_types.specs.Ordered.{arranged};
ghost use Rattle.package_tables.specs.Damaged.{ReadsClaims, claim_of_row};
ghost use Rattle.package_tables.specs.Shapes.{number_key};
ghost use Rattle.package_schema.specs.Looking.{LooksAt};
ghost use Rattle.package_schema.specs.Heads.{claim_said, store_claim};

use crate::own_forms::RECEIPTS;
use crate::placing::is_placed;
use crate::rows_alone::receipt_rows;
use package_tables::fault::Fault;
use package_tables::rows::ReceiptRow;
use sheet_types::collections::Text;
use sqlite::{Alter, Connection};
use std::alloc::{AllocError, Global};

/// What a row of a receipts table of its form claims, in its ranges or not (profile).
#[derive(Drop)]
pub struct StoreClaim {
    pub seq: i64,
    pub line: Text,
    pub source: Text,
    pub target: Text,
}

fn claims_of(rows: Vec<ReceiptRow>, alloc: Global) -> Result<Vec<StoreClaim>, Fault>
    ensures { IfOk result (λ claims. claims.items ≡ map store_claim rows.items) }
{
    let claims = rows.into_iter().map(|row| StoreClaim {
        seq: row.seq,
        line: row.line,
        source: row.source,
        target: row.target,
    });
    Ok(claims.collect(alloc)?)
}

/// The claims in the order in which tables of receipts are read: by how far their numbers are from 0.
fn in_order(claims: Vec<StoreClaim>) -> Result<Vec<StoreClaim>, AllocError>
    ensures { IfOk result (λ sorted. sorted.items ≡ arranged (λ c. number_key c.seq) claims.items) }
{
    let mut sorted = claims;
    sorted.sort_by_key(|claim: &StoreClaim| claim.seq.unsigned_abs())?;
    Ok(sorted)
}

/// What the receipts of the store claim, in their ranges or not, where their table has its form;
/// nothing in every other store.
///
/// # Errors
///
/// `OutOfMemory` where a growth was refused, and `StoreFault` where the store failed or a text is no UTF-8.
pub fn claims<S: Alter>(conn: &mut Connection<S>, alloc: Global) -> Result<Vec<StoreClaim>, Fault>
    requires { Rests (state S.Store conn.old) }
    ensures { LooksAt (λ db found. ReadsClaims db (map claim_said found.items)) (state S.Store conn.old)
        (state S.Store conn.new) result }
{
    if !is_placed(conn, &RECEIPTS)? {
        return Ok(Vec::new(alloc));
    }
    let rows = receipt_rows(conn, alloc)?;
    let claims = claims_of(rows, alloc)?;
    Ok(in_order(claims)?)
}
