//! A store that the register can do without: of a loan that came home, or of one that was never lent.
ghost use Rattle.std.specs.Prelude.{◌≡◌, ◌&&◌, ◌==◌, bytes_eq};
ghost use Rattle.std.specs.List.{list_any, list_all};
ghost use Rattle.sheet_types.specs.Custody.{ends_at};
ghost use Rattle.opening_strays.specs.Spent.{is_entry, is_kept, are_kept, is_known, is_own_loan, is_spent};

use opening_faults::sights::StoreHead;
use opening_verdict::seen::StoreSeen;
use sheet_types::receipt::Receipt;
use uuid::Uuid;

/// Whether these are the same receipt: its number, its request and its line.
fn is_entry(a: &Receipt, b: &Receipt) -> bool
    ensures { result ≡ is_entry a.now b.now }
{
    a.seq == b.seq && a.request == b.request && a.line.as_str() == b.line.as_str()
}

/// Whether a receipt stands in a ledger.
fn is_kept(ledger: &[Receipt], receipt: &Receipt) -> bool
    ensures { result ≡ is_kept ledger.now receipt.now }
{
    ledger.iter().any(|other| is_entry(other, receipt))
}

/// Whether all of these receipts do.
fn are_kept(ledger: &[Receipt], receipts: &[Receipt]) -> bool
    ensures { result ≡ are_kept ledger.now receipts.now }
{
    receipts.iter().all(|receipt| is_kept(ledger, receipt))
}

/// Whether a package is one of these.
fn is_among(package: Uuid, packages: &[Uuid]) -> bool
    ensures { result ≡ list_any (λ p. bytes_eq p «package») packages.now }
{
    packages.iter().any(|other| *other == package)
}

/// Whether the end of a receipt is this package.
fn ends_at(end: Option<Uuid>, package: Uuid) -> bool
    ensures { result ≡ ends_at end «package» }
{
    match end {
        Some(other) => other == package,
        None => false,
    }
}

/// Whether something came to this package.
fn is_target(package: Uuid, ledger: &[Receipt]) -> bool
    ensures { result ≡ list_any (λ r. ends_at r.target «package») ledger.now }
{
    ledger
        .iter()
        .any(|receipt| ends_at(receipt.target, package))
}

/// Whether a package is of the register: it lives, or something came to it once.
fn is_known(package: Uuid, ledger: &[Receipt], live: &[Uuid]) -> bool
    ensures { result ≡ is_known «package» ledger.now live.now }
{
    is_among(package, live) || is_target(package, ledger)
}

/// Whether a store says that it is this package's, lent by one of the register.
fn is_own_loan(package: Uuid, head: StoreHead, ledger: &[Receipt], live: &[Uuid]) -> bool
    ensures { result ≡ is_own_loan «package» head ledger.now live.now }
{
    match head.parent {
        Some(parent) => head.uuid == package && is_known(parent, ledger, live),
        None => false,
    }
}

/// Whether the register can do without the store in the file of this package: by the receipts of
/// the register, and the packages of it that live.
pub fn is_spent(package: Uuid, store: &StoreSeen, ledger: &[Receipt], live: &[Uuid]) -> bool
    ensures { result ≡ is_spent «package» store.now ledger.now live.now }
{
    let Some(head) = store.sight.head else {
        return false;
    };
    store.is_formed
        && store.is_tied
        && !is_among(package, live)
        && is_own_loan(package, head, ledger, live)
        && are_kept(ledger, &store.held.receipts)
}
