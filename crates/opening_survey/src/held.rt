//! What the package that a store reads as holds, as receipts tell it.
ghost use Rattle.sqlite.specs.Held.{state};
ghost use Rattle.store_sql.specs.Transactions.{Rests, Looks};
ghost use Rattle.identity_register.specs.Calls.{Sees};
ghost use Rattle.opening_faults.specs.Sights.{head_said};
ghost use Rattle.opening_survey.specs.Looks.{TellsHeld};

use identity_register::told::tell_all;
use opening_faults::sights::StoreHead;
use package_tables::fault::Fault;
use sheet_balance::sights::Sight as PackageSight;
use sheet_types::collections::MovedList;
use sheet_types::receipt::Receipt;
use sqlite::{Alter, Connection};
use std::alloc::Global;

/// What is held by the package that the store reads as, of this head and these receipts. One
/// content is in memory at a time.
///
/// # Errors
///
/// Want of memory, a store that failed, or rows that no package has.
pub(crate) fn held_of<S: Alter>(
    conn: &mut Connection<S>,
    alloc: Global,
    head: StoreHead,
    receipts: Vec<Receipt>,
) -> Result<PackageSight, Fault>
    requires { Rests (state S.Store conn.old) }
    ensures { Looks (Sees (TellsHeld (head_said head) receipts.items)) (state S.Store conn.old)
        (state S.Store conn.new) result }
{
    let (items, links) = tell_all(conn, alloc)?;
    Ok(PackageSight {
        uuid: head.uuid,
        parent: head.parent,
        loan: head.loan,
        items: MovedList::from_vec(items),
        links: MovedList::from_vec(links),
        receipts,
    })
}
