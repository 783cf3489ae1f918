//! The content of the item that a word names.
ghost use Rattle.std.specs.Prelude.{◌≡◌, IfOk, MatchResult, Err, option_map};
ghost use Rattle.sheet_types.specs.Ordered.{entry};
ghost use Rattle.sheet_types.specs.declared.command.Item.{Item};
ghost use Rattle.command_verbs.specs.Items.{the_item};
ghost use Rattle.world.specs.Worlds.{IsRead, TellsOf};
ghost use Rattle.command_requests.specs.Contents.{IsDataOf, IsListedData, IsNamedData, data_of};
ghost use Rattle.command_requests.specs.Listing.{IsUntouched, world_items};

use crate::listing::{items_among, packages_of};
use command_verbs::items::{ItemEntry, find_item};
use command_verbs::names::NameFault;
use package_tables::fault::Fault;
use sheet_types::command::{Content, Item};
use sqlite::Alter;
use std::alloc::Global;
use uuid::Uuid;
use world::world::World;

/// What stands in a content: the bytes of a tile or a medium, the label of a mark.
fn data_of(content: &Content) -> &[u8]
    ensures { result.now ≡ data_of content.now }
{
    match content {
        Content::Tile { bytes, .. } => bytes.as_slice(),
        Content::Media { bytes, .. } => bytes.as_slice(),
        Content::Row { label, .. } => label.as_str().as_bytes(),
    }
}

/// The item of an identity.
fn item_among(items: &[Item], identity: Uuid) -> Option<&Item>
    ensures { option_map (λ i. i.now) result ≡ entry (λ (i : Item). i.identity) identity items.now }
{
    items.iter().find(|item| item.identity == identity)
}

/// What stands in its content.
fn data_among(alloc: Global, items: &[Item], identity: Uuid) -> Result<Vec<u8>, Fault>
    ensures { IfOk result (λ bytes. IsDataOf (entry (λ (i : Item). i.identity) identity items.now) bytes.items) }
{
    let Some(item) = item_among(items, identity) else {
        return Err(Fault::StoreFault);
    };
    Ok(Vec::from_slice(alloc, data_of(&item.content))?)
}

/// What stands in the content of an item that was listed.
fn data_in<S: Alter + Drop>(
    alloc: Global,
    world: &mut World<S>,
    entry: &ItemEntry,
) -> Result<Vec<u8>, Fault>
    ensures told { TellsOf S.Store (λ w bytes. IsListedData w entry.now bytes.items) world.old world.new result }
    ensures read { IsRead S.Store world.old world.new }
{
    let Some((items, _links)) = world.holdings(alloc, entry.holder)? else {
        return Err(Fault::StoreFault);
    };
    data_among(alloc, items.as_slice(), entry.identity)
}

/// The items of all live packages.
fn world_items<S: Alter + Drop>(
    alloc: Global,
    world: &mut World<S>,
) -> Result<Vec<ItemEntry>, Fault>
    ensures told { TellsOf S.Store (λ w items. items.items ≡ world_items w) world.old world.new result }
    ensures read { IsUntouched S.Store world.old world.new }
{
    let packages = packages_of(alloc, world)?;
    let items = items_among(alloc, world, packages.as_slice())?;
    Ok(items)
}

/// What stands in the content of the one item that a word names, or why it names none. The world is only read.
///
/// # Errors
///
/// Want of memory, or a store that failed.
pub fn named_data<S: Alter + Drop>(
    alloc: Global,
    world: &mut World<S>,
    word: &str,
) -> Result<Result<Vec<u8>, NameFault>, Fault>
    ensures told { TellsOf S.Store (λ w found. MatchResult found (λ bytes. IsNamedData w word.now bytes.items)
        (λ fault. the_item (world_items w) word.now ≡ Err fault)) world.old world.new result }
    ensures read { IsUntouched S.Store world.old world.new }
{
    let items = world_items(alloc, world)?;
    match find_item(items.as_slice(), word) {
        Ok(entry) => {
            let bytes = data_in(alloc, world, &entry)?;
            Ok(Ok(bytes))
        }
        Err(fault) => Ok(Err(fault)),
    }
}
