//! By which split each package was made.
ghost use Rattle.std.specs.Prelude.{◌≡◌, map, IfOk};
ghost use Rattle.sqlite.specs.Held.{state};
ghost use Rattle.store_sql.specs.Transactions.{Rests, Looks};
ghost use Rattle.identity_register.specs.Calls.{Sees};
ghost use Rattle.view_history.specs.Stores.{AreAtRest, AsksStores};
ghost use Rattle.view_history.specs.Told.{IsLoanIn};

use crate::asking::ask_each;
use custody::keeping::natural_of;
use package_tables::fault::Fault;
use package_tables::head::all_heads;
use package_tables::rows::HeadRow;
use sqlite::{Alter, Connection};
use std::alloc::Global;
use world::asking::Question;

/// The number of the split that made the package of a head.
fn loan_in(heads: &[HeadRow]) -> Result<u64, Fault>
    ensures { IfOk result (λ loan. IsLoanIn heads.now loan) }
{
    if heads.len() != 1 {
        return Err(Fault::StoreFault);
    }
    natural_of(heads[0].loan)
}

/// The number of the split that made the package of a store; 0 of an archive.
fn loan_of<S: Alter>(conn: &mut Connection<S>, alloc: Global) -> Result<u64, Fault>
    requires { Rests (state S.Store conn.old) }
    ensures { Looks (Sees (λ f p loan. loan ≡ p.loan)) (state S.Store conn.old) (state S.Store conn.new) result }
{
    let heads = all_heads(conn, alloc)?;
    let loan = loan_in(heads.as_slice())?;
    Ok(loan)
}

/// The number of the split that made a package, 0 of an archive.
#[derive(Clone, Copy)]
pub struct LoanOf;

impl<S: Alter> Question<S, u64> for LoanOf {
    ghost tells = { λ question p loan. loan ≡ p.loan };

    fn ask(&self, conn: &mut Connection<S>, alloc: Global) -> Result<u64, Fault> {
        loan_of(conn, alloc)
    }
}

/// The numbers of the splits that made the packages of stores, in their order; 0 of an archive.
///
/// # Errors
///
/// Want of memory, a store that failed, or a head that no package has. All stores are as they were.
pub fn loans_of<S: Alter + Drop>(
    stores: &mut Vec<Connection<S>>,
    alloc: Global,
) -> Result<Vec<u64>, Fault>
    requires { AreAtRest S.Store stores.old.items }
    ensures { AsksStores S.Store (λ packages loans. loans.items ≡ map (λ p. p.loan) packages) stores.old.items
        stores.new.items result }
{
    ask_each(stores, alloc, &LoanOf)
}
