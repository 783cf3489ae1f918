//! All stores that are handed in, each looked at once. None is written to.
ghost use Rattle.std.specs.Prelude.{◌<◌, ◌↔◌, length, IfOk, IsTrue};
ghost use Rattle.world_changes.specs.Leaving.{AreAtRest};
ghost use Rattle.opening_stores.specs.Stores.{AreOnlyRead, AreOpenWhereClean, AreSurveyed, LooksAtOne};

use crate::watching::Watcher;
use opening_v1::either::survey_either;
use opening_verdict::seen::StoreSeen;
use package_tables::fault::Fault;
use sqlite::{Alter, Connection};
use std::alloc::Global;
use store_sql::resting::is_at_rest;

/// Whether no store is inside a transaction.
pub fn are_at_rest<S: Alter + Drop>(stores: &[Connection<S>]) -> bool
    ensures { IsTrue result ↔ AreAtRest S.Store stores.now }
{
    for at in 0..stores.len() {
        if !is_at_rest(&stores[at]) {
            return false;
        }
    }
    true
}

/// What is seen of the store at a place.
fn survey_at<S: Alter + Drop>(
    stores: &mut Vec<Connection<S>>,
    at: usize,
    alloc: Global,
) -> Result<StoreSeen, Fault>
    requires within { at < length stores.old.items }
    requires rests { AreAtRest S.Store stores.old.items }
    ensures looked { LooksAtOne S.Store stores.old.items stores.new.items at result }
{
    let conn = &mut stores[at];
    survey_either(conn, alloc)
}

/// What is seen of each store, in turn.
///
/// # Errors
///
/// Want of memory, or a store that failed.
pub(crate) fn survey_all<S: Alter + Drop, W: Watcher>(
    stores: &mut Vec<Connection<S>>,
    alloc: Global,
    watcher: &mut W,
) -> Result<Vec<StoreSeen>, Fault>
    requires { AreAtRest S.Store stores.old.items }
    ensures read { AreOnlyRead S.Store stores.old.items stores.new.items }
    ensures rests { AreAtRest S.Store stores.new.items }
    ensures opens { IfOk result (λ _. AreOpenWhereClean S.Store stores.new.items) }
    ensures seen { IfOk result (λ seen. AreSurveyed S.Store stores.old.items stores.new.items seen.items) }
{
    let count = stores.len();
    let mut all = Vec::new(alloc);
    for at in 0..count {
        watcher.looked_at(at, count);
        let seen = survey_at(stores, at, alloc)?;
        all.push(seen)?;
    }
    watcher.looked_at(count, count);
    Ok(all)
}
