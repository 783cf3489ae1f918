//! A selection that goes out of a package inside a transaction: first its links, then its items.
ghost use Rattle.std.specs.Prelude.{◌≡◌, IfErr};
ghost use Rattle.sqlite.specs.Held.{state};
ghost use Rattle.store_sql.specs.Transactions.{Steps};
ghost use Rattle.store_sql.specs.Writing.{Chained, EachChained};
ghost use Rattle.identity_register.specs.LocalNumbers.{Shrinks};
ghost use Rattle.transfer.specs.Refusals.{IsFault};
ghost use Rattle.transfer.specs.Parcels.{names_of, IsSelection, without_names};
ghost use Rattle.transfer.specs.Removals.{DropsItem, DropsLink};

use crate::refusals::refusal_of;
use identity_register::changes::{delete, unlink};
use identity_register::fitting::fits;
use identity_register::selection::Selection;
use package_tables::fault::Fault;
use sheet_types::command::Relation;
use sheet_types::refusal::Refusal;
use sqlite::{Alter, Transaction};
use uuid::Uuid;

/// Takes a link out.
fn drop_link<S: Alter>(tx: &mut Transaction<'_, S>, relation: Relation) -> Result<(), Fault>
    ensures same_reference { tx.new.conn.ghost_name ≡ tx.old.conn.ghost_name }
    ensures steps { Steps (λ _. DropsLink relation) (state S.Store tx.old.conn.now) (state S.Store tx.new.conn.now)
        result }
{
    fits(relation.base);
    fits(relation.other);
    unlink(tx, relation)
}

/// Takes links out, in turn.
fn drop_links<S: Alter>(tx: &mut Transaction<'_, S>, relations: &[Relation]) -> Result<(), Fault>
    ensures same_reference { tx.new.conn.ghost_name ≡ tx.old.conn.ghost_name }
    ensures steps { Steps (λ _. EachChained DropsLink relations.now) (state S.Store tx.old.conn.now)
        (state S.Store tx.new.conn.now) result }
{
    for relation in relations {
        drop_link(tx, *relation)?;
    }
    Ok(())
}

/// Takes items out that no link names, in turn.
fn drop_items<S: Alter>(tx: &mut Transaction<'_, S>, identities: &[Uuid]) -> Result<(), Fault>
    ensures same_reference { tx.new.conn.ghost_name ≡ tx.old.conn.ghost_name }
    ensures steps { Steps (λ _. EachChained DropsItem identities.now) (state S.Store tx.old.conn.now)
        (state S.Store tx.new.conn.now) result }
{
    for identity in identities {
        delete(tx, *identity)?;
    }
    Ok(())
}

/// Takes the links and then the items of a selection out.
fn drop_each<S: Alter>(tx: &mut Transaction<'_, S>, selection: &Selection) -> Result<(), Fault>
    ensures same_reference { tx.new.conn.ghost_name ≡ tx.old.conn.ghost_name }
    ensures steps { Steps (λ _. Chained (EachChained DropsLink selection.now.links.items)
        (EachChained DropsItem selection.now.identities.items)) (state S.Store tx.old.conn.now)
        (state S.Store tx.new.conn.now) result }
{
    drop_links(tx, &selection.links)?;
    drop_items(tx, &selection.identities)
}

/// Takes a selection out of the package in which it stands with all links of its items.
///
/// # Errors
///
/// Want of memory, or a store that failed. Nothing is committed; the transaction has to be dropped.
pub fn take<S: Alter>(tx: &mut Transaction<'_, S>, selection: &Selection) -> Result<(), Refusal>
    ensures same_reference { tx.new.conn.ghost_name ≡ tx.old.conn.ghost_name }
    ensures steps { Steps (λ _. Shrinks (IsSelection (names_of selection.now))
        (without_names (names_of selection.now))) (state S.Store tx.old.conn.now) (state S.Store tx.new.conn.now)
        result }
    ensures refused { IfErr result IsFault }
{
    match drop_each(tx, selection) {
        Ok(()) => Ok(()),
        Err(fault) => Err(refusal_of(fault)),
    }
}
