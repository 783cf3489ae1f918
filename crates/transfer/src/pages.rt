//! A selection that comes from one package into another, a page at a time: no more than one item is in memory at once.
ghost use Rattle.std.specs.Prelude.{◌≡◌, ◌≤◌, [], ◌∷◌, Some, IfOk, IfErr, IsTrue};
ghost use Rattle.std.specs.List.{filter_map};
ghost use Rattle.sqlite.specs.Held.{state};
ghost use Rattle.sqlite.specs.State.{HasCleanDisk};
ghost use Rattle.store_sql.specs.Staying.{Stays};
ghost use Rattle.store_sql.specs.Transactions.{Rests, Steps};
ghost use Rattle.sheet_types.specs.World.{item_of};
ghost use Rattle.sheet_types.specs.declared.refusal.Refusal.TheVariants.{TooMany};
ghost use Rattle.transfer.specs.Refusals.{IsReason};
ghost use Rattle.transfer.specs.Parcels.{names_of, selected, things, part, page_end, page_size};
ghost use Rattle.transfer.specs.Moves.{TriesItem, TriesItems, TriesEach, Takes, IsTooMuch, OfSource};

use crate::putting::{put_item, put_links};
use crate::refusals::refusal_of;
use identity_register::look_ups::find;
use identity_register::selection::Selection;
use package_tables::fault::Fault;
use sheet_types::command::Item;
use sheet_types::refusal::Refusal;
use sqlite::{Alter, Connection, Transaction};
use uuid::Uuid;

// How many items and links move at a time.
const PAGE: usize = 256;

/// The item of an identity that the package has.
fn item_in<S: Alter>(conn: &mut Connection<S>, identity: Uuid) -> Result<Item, Fault>
    requires { Rests (state S.Store conn.old) }
    ensures stays { Stays (state S.Store conn.old) (state S.Store conn.new) }
    ensures told { IfOk result (λ item. HasCleanDisk (state S.Store conn.new)
        → OfSource (state S.Store conn.old) (λ p. item_of p identity ≡ Some item)) }
{
    match find(conn, identity)? {
        Some(item) => Ok(item),
        None => Err(Fault::StoreFault),
    }
}

/// Takes in an item of the source. Tells whether there was room for it.
fn carry_item<S: Alter>(
    source: &mut Connection<S>,
    tx: &mut Transaction<'_, S>,
    identity: Uuid,
) -> Result<bool, Fault>
    requires { Rests (state S.Store source.old) }
    ensures same_reference { tx.new.conn.ghost_name ≡ tx.old.conn.ghost_name }
    ensures source { Stays (state S.Store source.old) (state S.Store source.new) }
    ensures steps { Steps (λ came old new. HasCleanDisk (state S.Store source.new)
        → OfSource (state S.Store source.old) (λ p. TriesItems (filter_map (item_of p) (identity ∷ [])) came old
        new))
        (state S.Store tx.old.conn.now) (state S.Store tx.new.conn.now) result }
{
    let item = item_in(source, identity)?;
    put_item(tx, &item)
}

/// Takes in items of the source, in turn. Tells whether there was room for all.
fn carry_items<S: Alter>(
    source: &mut Connection<S>,
    tx: &mut Transaction<'_, S>,
    identities: &[Uuid],
) -> Result<bool, Fault>
    requires { Rests (state S.Store source.old) }
    ensures same_reference { tx.new.conn.ghost_name ≡ tx.old.conn.ghost_name }
    ensures source { Stays (state S.Store source.old) (state S.Store source.new) }
    ensures steps { Steps (λ came old new. HasCleanDisk (state S.Store source.new)
        → OfSource (state S.Store source.old) (λ p. TriesItems (filter_map (item_of p) identities.now) came old new))
        (state S.Store tx.old.conn.now) (state S.Store tx.new.conn.now) result }
{
    for identity in identities {
        let came = carry_item(source, tx, *identity)?;
        if !came {
            return Ok(false);
        }
    }
    Ok(true)
}

/// Takes in what stands in the selection from a position up to another. Tells whether there was room for it.
fn carry_part<S: Alter>(
    source: &mut Connection<S>,
    tx: &mut Transaction<'_, S>,
    selection: &Selection,
    from: usize,
    to: usize,
) -> Result<bool, Fault>
    requires rests { Rests (state S.Store source.old) }
    requires order { from ≤ to }
    requires within { to ≤ things (names_of selection.now) }
    ensures same_reference { tx.new.conn.ghost_name ≡ tx.old.conn.ghost_name }
    ensures source { Stays (state S.Store source.old) (state S.Store source.new) }
    ensures steps { Steps (λ came old new. HasCleanDisk (state S.Store source.new)
        → OfSource (state S.Store source.old) (λ p. TriesEach (selected (part from to (names_of selection.now)) p)
        came old new)) (state S.Store tx.old.conn.now) (state S.Store tx.new.conn.now) result }
{
    let items = selection.identities.len();
    let identities = &selection.identities[from.min(items)..to.min(items)];
    let links = &selection.links[from.saturating_sub(items)..to.saturating_sub(items)];
    let came = carry_items(source, tx, identities)?;
    if !came {
        return Ok(false);
    }
    put_links(tx, links)?;
    Ok(true)
}

/// How many items and links a selection has.
fn things(selection: &Selection) -> usize
    ensures { result ≡ things (names_of selection.now) }
{
    selection.identities.len() + selection.links.len()
}

/// The position after the page from another on.
fn page_end(selection: &Selection, from: usize) -> usize
    ensures { result ≡ page_end from (names_of selection.now) }
{
    from.saturating_add(PAGE).min(things(selection))
}

/// Takes in the whole selection, page after page. Tells whether there was room for all.
fn carry_each<S: Alter>(
    source: &mut Connection<S>,
    tx: &mut Transaction<'_, S>,
    selection: &Selection,
) -> Result<bool, Fault>
    requires { Rests (state S.Store source.old) }
    ensures same_reference { tx.new.conn.ghost_name ≡ tx.old.conn.ghost_name }
    ensures source { Stays (state S.Store source.old) (state S.Store source.new) }
    ensures steps { Steps (λ came old new. HasCleanDisk (state S.Store source.new)
        → OfSource (state S.Store source.old) (λ p. TriesEach (selected (names_of selection.now) p) came old new))
        (state S.Store tx.old.conn.now) (state S.Store tx.new.conn.now) result }
{
    let all = things(selection);
    let mut from = 0;
    while from < all {
        let end = page_end(selection, from);
        let came = carry_part(source, tx, selection, from, end)?;
        if !came {
            return Ok(false);
        }
        from = end;
    }
    Ok(true)
}

/// Takes in the whole selection, page after page: first its items, each under its identity with its
/// content, then its links by their ends. The source stays as it is.
///
/// # Errors
///
/// `TooMany` where there is no room for the items of a kind, want of memory, a store that failed,
/// or an item that the source has not. Nothing is committed; the transaction has to be dropped.
pub fn carry_over<S: Alter>(
    source: &mut Connection<S>,
    tx: &mut Transaction<'_, S>,
    selection: &Selection,
) -> Result<(), Refusal>
    requires { Rests (state S.Store source.old) }
    ensures same_reference { tx.new.conn.ghost_name ≡ tx.old.conn.ghost_name }
    ensures source { Stays (state S.Store source.old) (state S.Store source.new) }
    ensures steps { Steps (λ _ old new. HasCleanDisk (state S.Store source.new)
        → OfSource (state S.Store source.old) (λ p. Takes (selected (names_of selection.now) p) old new))
        (state S.Store tx.old.conn.now) (state S.Store tx.new.conn.now) result }
    ensures too_many { result ≡ Err TooMany → HasCleanDisk (state S.Store source.new)
        → HasCleanDisk (state S.Store tx.new.conn.now) → IsTrue (state S.Store tx.old.conn.now).in_transaction
        → OfSource (state S.Store source.old) (λ p. IsTooMuch (selected (names_of selection.now) p)
        (state S.Store tx.old.conn.now).now) }
    ensures refused { IfErr result IsReason }
{
    match carry_each(source, tx, selection) {
        Ok(true) => Ok(()),
        Ok(false) => Err(Refusal::TooMany),
        Err(fault) => Err(refusal_of(fault)),
    }
}
