//! The kinds of items and of what receipts moved, by the numbers that rows have of them (profile).
ghost use Rattle.std.specs.Prelude.{◌≡◌, ◌≢◌, pos, IfOk, IfErr};
ghost use Rattle.sheet_types.specs.World.{kind_number};
ghost use Rattle.sheet_types.specs.declared.receipt.MovedKind.{MovedKind};

use package_tables::fault::Fault;
use sheet_types::receipt::MovedKind;

/// A tile.
pub const TILE: i64 = 1;

/// A medium.
pub const MEDIUM: i64 = 2;

/// An attributes row.
pub const ROW: i64 = 3;

/// The number by which a kind is stored.
pub fn number_of_kind(kind: MovedKind) -> i64
    ensures { result ≡ pos (kind_number kind) }
{
    i64::from(kind.number())
}

/// The kind that is stored by this number.
pub fn kind_of_number(number: i64) -> Result<MovedKind, Fault>
    ensures kind { IfOk result (λ kind. number ≡ pos (kind_number kind)) }
    ensures none { IfErr result (λ _. (kind : MovedKind) → number ≢ pos (kind_number kind)) }
{
    let Ok(number) = u8::try_from(number) else {
        return Err(Fault::StoreFault);
    };
    MovedKind::from_number(number).ok_or(Fault::StoreFault)
}
