//! Whether two values are one.
ghost use Rattle.std.specs.Prelude.{◌≡◌, ◌↔◌, ◌∷◌, [], IsTrue};

use sheet_types::receipt::{Moved, MovedKind};
use uuid::Uuid;

/// Whether two UUIDs are one.
pub(crate) fn same_uuid(a: Uuid, b: Uuid) -> bool
    ensures { IsTrue result ↔ (a ≡ b) }
{
    a == b
}

/// Whether two ends are one: no package twice, or one package twice.
pub(crate) fn same_end(a: Option<Uuid>, b: Option<Uuid>) -> bool
    ensures { IsTrue result ↔ (a ≡ b) }
{
    match (a, b) {
        (Some(a), Some(b)) => same_uuid(a, b),
        (None, None) => true,
        _ => false,
    }
}

// Whether two digests are one.
fn same_bytes(a: &[u8; 32], b: &[u8; 32]) -> bool
    ensures { IsTrue result ↔ (a.now ≡ b.now) }
{
    *a == *b
}

/// Whether two digests are one: none twice, or one twice.
pub(crate) fn same_digest(a: &Option<[u8; 32]>, b: &Option<[u8; 32]>) -> bool
    ensures { IsTrue result ↔ (a.now ≡ b.now) }
{
    match (a, b) {
        (Some(a), Some(b)) => same_bytes(a, b),
        (None, None) => true,
        _ => false,
    }
}

/// Whether two kinds are one.
pub(crate) fn same_kind(a: MovedKind, b: MovedKind) -> bool
    ensures { IsTrue result ↔ (a ≡ b) }
{
    a == b
}

/// Whether two things that were moved are one, in all that is said of them.
pub(crate) fn same_moved(a: &Moved, b: &Moved) -> bool
    ensures { IsTrue result ↔ (a.now ≡ b.now) }
{
    same_kind(a.kind, b.kind)
        & same_uuid(a.base, b.base)
        & same_end(a.other, b.other)
        & (a.size == b.size)
        & same_digest(&a.fingerprint, &b.fingerprint)
}

/// Whether nothing else was moved.
pub(crate) fn is_only(things: &[Moved], moved: &Moved) -> bool
    ensures { IsTrue result ↔ (things.now ≡ moved.now ∷ []) }
{
    match things {
        [one] => same_moved(one, moved),
        _ => false,
    }
}
