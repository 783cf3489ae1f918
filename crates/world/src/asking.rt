//! One question, asked of the store of a live package. The store is only read.
ghost use Rattle.std.specs.Prelude.{◌≡◌, ◌<◌, Some, OnOk, length, slice_get};
ghost use Rattle.sqlite.specs.Held.{state};
ghost use Rattle.store_sql.specs.Transactions.{Rests, Looks};
ghost use Rattle.sheet_types.specs.World.{Package};
ghost use Rattle.identity_register.specs.Calls.{Sees};
ghost use Rattle.world_members.specs.Members.{AllRest, AllClean, AllOpen};
ghost use Rattle.world_queries.specs.Asking.{AsksAll};
ghost use Rattle.world.specs.Questions.{IsAnswer};
ghost use Rattle.world.specs.Worlds.{IsRead, TellsOf};

use crate::world::World;
use package_tables::fault::Fault;
use sqlite::{Alter, Connection};
use std::alloc::Global;
use uuid::Uuid;
use world_members::members::Member;
use world_queries::asking::place_of;

/// What is asked of the store of one package.
pub trait Question<S: Alter, A: Drop> {
    /// This is the answer of a package.
    ghost tells: { Self → Package → A → Type 0 };

    /// Asks a store, which is as it was afterwards.
    fn ask(&self, conn: &mut Connection<S>, alloc: Global) -> Result<A, Fault>
        requires { Rests (state S.Store conn.old) }
        ensures { Looks (Sees (λ f p x. tells self.now p x)) (state S.Store conn.old) (state S.Store conn.new) result };
}

/// The answer of the package of the member at a place.
fn ask_at<S: Alter + Drop, A: Drop, Q: Question<S, A>>(
    members: &mut Vec<Member<S>>,
    at: usize,
    alloc: Global,
    question: &Q,
) -> Result<A, Fault>
    requires within { at < length members.old.items }
    requires rests { AllRest S.Store members.old.items }
    ensures { AsksAll S.Store
        (λ w x. (p : Package) → slice_get w.packages at ≡ Some p → Q.tells question.now p x)
        members.old.items members.new.items result }
{
    let member = &mut members[at];
    question.ask(&mut member.conn, alloc)
}

/// The answer of a package, if it is live.
fn ask_in<S: Alter + Drop, A: Drop, Q: Question<S, A>>(
    members: &mut Vec<Member<S>>,
    alloc: Global,
    package: Uuid,
    question: &Q,
) -> Result<Option<A>, Fault>
    requires { AllRest S.Store members.old.items }
    ensures { AsksAll S.Store (λ w found. IsAnswer (Q.tells question.now) w «package» found)
        members.old.items members.new.items result }
{
    match place_of(members.as_slice(), package) {
        Some(at) => Ok(Some(ask_at(members, at, alloc, question)?)),
        None => Ok(None),
    }
}

impl<S: Alter + Drop> World<S> {
    /// The answer of a live package to a question. `None` for a package that is not live.
    ///
    /// # Errors
    ///
    /// Want of memory, or a store that failed. The world has not failed by that.
    pub fn ask<A: Drop, Q: Question<S, A>>(
        &mut self,
        alloc: Global,
        package: Uuid,
        question: &Q,
    ) -> Result<Option<A>, Fault>
        ensures told { TellsOf S.Store (λ w found. IsAnswer (Q.tells question.now) w «package» found) self.old
            self.new result }
        ensures read { IsRead S.Store self.old self.new }
        ensures opens { AllClean S.Store self.new.members → OnOk result
            (AllOpen S.Store self.old.members → AllOpen S.Store self.new.members) }
    {
        ask_in(&mut self.members, alloc, package, question)
    }
}
