//! One question, asked of each store in turn.
ghost use Rattle.std.specs.Prelude.{◌<◌, length};
ghost use Rattle.std.specs.List.{AllZip};
ghost use Rattle.view_history.specs.Stores.{AreAtRest, AsksAt, AsksStores};

use package_tables::fault::Fault;
use sqlite::{Alter, Connection};
use std::alloc::Global;
use world::asking::Question;

/// The answer of the store at a place.
fn ask_at<S: Alter + Drop, A: Drop, Q: Question<S, A>>(
    stores: &mut Vec<Connection<S>>,
    at: usize,
    alloc: Global,
    question: &Q,
) -> Result<A, Fault>
    requires within { at < length stores.old.items }
    requires rests { AreAtRest S.Store stores.old.items }
    ensures { AsksAt S.Store (Q.tells question.now) stores.old.items stores.new.items at result }
{
    let conn = &mut stores[at];
    question.ask(conn, alloc)
}

/// The answers of all stores, in turn.
///
/// # Errors
///
/// Want of memory, or the first error of an answer.
pub(crate) fn ask_each<S: Alter + Drop, A: Drop, Q: Question<S, A>>(
    stores: &mut Vec<Connection<S>>,
    alloc: Global,
    question: &Q,
) -> Result<Vec<A>, Fault>
    requires { AreAtRest S.Store stores.old.items }
    ensures { AsksStores S.Store (λ packages answers. AllZip (Q.tells question.now) packages answers.items)
        stores.old.items stores.new.items result }
{
    let mut answers = Vec::new(alloc);
    for at in 0..stores.len() {
        let answer = ask_at(stores, at, alloc, question)?;
        answers.push(answer)?;
    }
    Ok(answers)
}
