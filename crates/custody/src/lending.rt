//! Whether a package came out of a split, by the receipts that stand in another.
ghost use Rattle.std.specs.Prelude.{◌≡◌, ◌&&◌, bytes_eq, filter};
ghost use Rattle.std.specs.Ordering.{int_cmp, is_gt};
ghost use Rattle.sqlite.specs.Held.{state};
ghost use Rattle.store_sql.specs.Transactions.{Rests, Looks};
ghost use Rattle.sheet_types.specs.Custody.{is_split_line};
ghost use Rattle.sheet_types.specs.Lines.{uuid_in};
ghost use Rattle.sheet_types.specs.Texts.{uuid_text};
ghost use Rattle.package_tables.specs.Calls.{LooksUp, IsLeast};
ghost use Rattle.identity_register.specs.Calls.{Sees};
ghost use Rattle.custody.specs.Receipts.{was_lent};

use package_tables::fault::Fault;
use package_tables::receipts::receipt_to_after;
use package_tables::rows::ReceiptRow;
use sheet_ledger::entries::{LineEntry, read_line};
use sqlite::{Alter, Connection};
use uuid::Uuid;

/// Whether a line is that of a split.
fn is_split_line(line: &str) -> bool
    ensures { result ≡ is_split_line line.now }
{
    matches!(read_line(line), Some(LineEntry::Split { .. }))
}

/// The row of the least number above another among those with this target.
fn next_to<S: Alter>(
    conn: &mut Connection<S>,
    target: Uuid,
    last: i64,
) -> Result<Option<ReceiptRow>, Fault>
    requires { Rests (state S.Store conn.old) }
    ensures looked { LooksUp (λ t. IsLeast (λ x. x.seq) (filter
        (λ x. bytes_eq x.target (uuid_text target) && is_gt (int_cmp x.seq last)) t.receipts))
        (state S.Store conn.old) (state S.Store conn.new) result }
    ensures back { uuid_in (uuid_text target) ≡ target }
{
    let mut buffer = Uuid::encode_buffer();
    let text = target.hyphenated().encode_lower(&mut buffer);
    receipt_to_after(conn, text, last)
}

/// Whether this is the target of any split of which the package has the receipt. One row is in memory at once.
///
/// # Errors
///
/// Want of memory, or a store that failed. The store is as it was.
pub fn was_lent<S: Alter>(conn: &mut Connection<S>, id: Uuid) -> Result<bool, Fault>
    requires { Rests (state S.Store conn.old) }
    ensures { Looks (Sees (λ f p found. found ≡ was_lent p id)) (state S.Store conn.old) (state S.Store conn.new)
        result }
{
    let mut last = -1;
    for _ in 0..u64::MAX {
        match next_to(conn, id, last)? {
            None => return Ok(false),
            Some(row) => {
                if is_split_line(row.line.as_str()) {
                    return Ok(true);
                }
                last = row.seq;
            }
        }
    }
    Err(Fault::StoreFault)
}
