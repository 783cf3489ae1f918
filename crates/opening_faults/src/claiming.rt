//! What one claim says, and whether a store is the loan that it made.
ghost use Rattle.std.specs.Prelude.{◌≡◌, pos, bytes_eq};
ghost use Rattle.sheet_types.specs.Matrix.{is_within};
ghost use Rattle.sheet_types.specs.Texts.{uuid_text};
ghost use Rattle.sheet_types.specs.Opening.{claims_split, claims_merge};
ghost use Rattle.opening_faults.specs.Passages.{is_passage};
ghost use Rattle.opening_faults.specs.Sights.{claim_said, is_loan_of};

use crate::sights::{Sight, StoreClaim};
use sheet_ledger::entries::{LineEntry, read_line};
use uuid::Uuid;

/// Whether a claim is of a split: its whole line is that of one.
pub fn claims_split(claim: &StoreClaim) -> bool
    ensures { result ≡ claims_split (claim_said claim.now) }
{
    matches!(
        read_line(claim.line.as_str()),
        Some(LineEntry::Split { .. })
    )
}

/// Whether a claim is of a merge: its whole line is that of one.
pub fn claims_merge(claim: &StoreClaim) -> bool
    ensures { result ≡ claims_merge (claim_said claim.now) }
{
    matches!(
        read_line(claim.line.as_str()),
        Some(LineEntry::Merge { .. })
    )
}

/// Whether a claim is of a split or of a merge: by it a package goes out or comes home. Which stores
/// live, and which splits are open, depends on these claims alone.
pub fn is_passage(claim: &StoreClaim) -> bool
    ensures { result ≡ is_passage (claim_said claim.now) }
{
    matches!(
        read_line(claim.line.as_str()),
        Some(LineEntry::Split { .. } | LineEntry::Merge { .. })
    )
}

/// Whether a text is that of a UUID, in lower case.
pub fn is_text_of(id: Uuid, text: &str) -> bool
    ensures { result ≡ bytes_eq (uuid_text id) text.now }
{
    let mut buffer = Uuid::encode_buffer();
    id.hyphenated().encode_lower(&mut buffer) == text
}

/// Whether two numbers are one.
pub fn is_number_of(loan: u64, seq: i64) -> bool
    ensures { result ≡ is_within seq seq (pos loan) }
{
    match i64::try_from(loan) {
        Ok(number) => number == seq,
        Err(_) => false,
    }
}

/// Whether a store is the loan that a split made: it has its target's UUID and its number.
pub fn is_loan_of(claim: &StoreClaim, sight: &Sight) -> bool
    ensures { result ≡ is_loan_of (claim_said claim.now) sight.now }
{
    match &sight.head {
        Some(head) => {
            is_text_of(head.uuid, claim.target.as_str()) && is_number_of(head.loan, claim.seq)
        }
        None => false,
    }
}
