//! Items and links that come into a package inside a transaction, one by one.
ghost use Rattle.std.specs.Prelude.{◌≡◌};
ghost use Rattle.sqlite.specs.Held.{state};
ghost use Rattle.store_sql.specs.Transactions.{Steps};
ghost use Rattle.store_sql.specs.Writing.{EachChained};
ghost use Rattle.transfer.specs.Moves.{TriesItem, PutsLink};

use identity_register::additions::add_if_room;
use identity_register::changes::link;
use identity_register::fitting::fits;
use package_tables::fault::Fault;
use sheet_types::command::{Item, Relation};
use sqlite::{Alter, Transaction};

/// Takes an item in. Tells whether there was room for it.
pub(crate) fn put_item<S: Alter>(tx: &mut Transaction<'_, S>, item: &Item) -> Result<bool, Fault>
    ensures same_reference { tx.new.conn.ghost_name ≡ tx.old.conn.ghost_name }
    ensures steps { Steps (TriesItem item.now) (state S.Store tx.old.conn.now) (state S.Store tx.new.conn.now) result }
{
    fits(item.identity);
    add_if_room(tx, item.identity, &item.content)
}

/// Takes a link in.
fn put_link<S: Alter>(tx: &mut Transaction<'_, S>, relation: Relation) -> Result<(), Fault>
    ensures same_reference { tx.new.conn.ghost_name ≡ tx.old.conn.ghost_name }
    ensures steps { Steps (λ _. PutsLink relation) (state S.Store tx.old.conn.now) (state S.Store tx.new.conn.now)
        result }
{
    fits(relation.base);
    fits(relation.other);
    link(tx, relation)
}

/// Takes links in, in turn.
pub(crate) fn put_links<S: Alter>(
    tx: &mut Transaction<'_, S>,
    relations: &[Relation],
) -> Result<(), Fault>
    ensures same_reference { tx.new.conn.ghost_name ≡ tx.old.conn.ghost_name }
    ensures steps { Steps (λ _. EachChained PutsLink relations.now) (state S.Store tx.old.conn.now)
        (state S.Store tx.new.conn.now) result }
{
    for relation in relations {
        put_link(tx, *relation)?;
    }
    Ok(())
}
