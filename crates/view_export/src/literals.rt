//! Literals of SQL.
ghost use Rattle.std.specs.Prelude.{◌≡◌, IfOk, Some, string_bytes};
ghost use Rattle.view_export.specs.Statements.{blob, is_plain, text_literal, thousandths, uuid_literal};

use std::alloc::{AllocError, Global};
use std::fmt;
use uuid::Uuid;

/// A number of thousandths that prints with three decimals: `-0.250` of -250.
#[derive(Clone, Copy, PartialEq, Eq)]
pub struct Thousandths(pub i64);

impl fmt::Display for Thousandths {
    ghost output = { λ number. Some (thousandths number.0) };

    fn fmt<W: fmt::Write>(&self, f: &mut fmt::Formatter<W>) -> fmt::Result {
        let sign = if self.0 < 0 { "-" } else { "" };
        let size = self.0.unsigned_abs();
        let whole = size / 1000;
        let (tenth, hundredth, thousandth) = (size / 100 % 10, size / 10 % 10, size % 10);
        write!(f, "{sign}{whole}.{tenth}{hundredth}{thousandth}")
    }
}

/// A UUID that prints in lower case between apostrophes.
#[derive(Clone, Copy, PartialEq, Eq)]
pub struct UuidLiteral(pub Uuid);

impl fmt::Display for UuidLiteral {
    ghost output = { λ id. Some (uuid_literal id.0) };

    fn fmt<W: fmt::Write>(&self, f: &mut fmt::Formatter<W>) -> fmt::Result {
        let uuid = self.0;
        write!(f, "'{uuid}'")
    }
}

/// These bytes, by their hexadecimal digits.
///
/// # Errors
///
/// Want of memory.
pub fn blob(alloc: Global, bytes: &[u8]) -> Result<String, AllocError>
    ensures { IfOk result (λ text. string_bytes text ≡ blob bytes.now) }
{
    let digits = hex::encode(alloc, bytes)?;
    format!(in alloc; "X'{digits}'")
}

/// Whether a text can stand between apostrophes as it is: NUL would cut it there, and an apostrophe end it.
fn is_plain(text: &[u8]) -> bool
    ensures { result ≡ is_plain text.now }
{
    !text.contains(&0) && !text.contains(&b'\'')
}

/// A text between apostrophes, or by its bytes where it cannot stand there.
///
/// # Errors
///
/// Want of memory.
pub fn text_literal(alloc: Global, text: &str) -> Result<String, AllocError>
    ensures { IfOk result (λ literal. string_bytes literal ≡ text_literal text.now) }
{
    if is_plain(text.as_bytes()) {
        return format!(in alloc; "'{text}'");
    }
    let digits = hex::encode(alloc, text)?;
    format!(in alloc; "CAST(X'{digits}' AS TEXT)")
}
