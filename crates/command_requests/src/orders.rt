//! A verb, the identity and the moment of its request; and the request.
ghost use Rattle.std.specs.Prelude.{◌≡◌, true, MatchResult, map, flat_map};
ghost use Rattle.sheet_types.specs.World.{World as ModelWorld};
ghost use Rattle.command_verbs.specs.Names.{sight};
ghost use Rattle.world_members.specs.Members.{AllClean};
ghost use Rattle.world.specs.Worlds.{StandsFor, TellsOf};
ghost use Rattle.command_requests.specs.Listing.{IsUntouched, items_under};
ghost use Rattle.command_requests.specs.Orders.{Asks, AsksAmong, IsWhyUnasked, IsWhyUnaskedAmong, names_items};

use crate::listing::{items_among, packages_of};
use command_verbs::items::ItemEntry;
use command_verbs::names::PackageEntry;
use command_verbs::verbs::{Verb, VerbFault, request_of, say};
use package_tables::fault::Fault;
use sheet_types::command::Request;
use sqlite::Alter;
use std::alloc::Global;
use uuid::Uuid;
use world::world::World;

/// A verb with its words, and under which identity and at which moment it is asked for.
#[derive(Clone, Copy)]
pub struct Order<'t> {
    pub id: Uuid,
    pub at: &'t str,
    pub verb: Verb<'t>,
}

/// Why there is no request.
#[derive(Clone, Copy, Debug, PartialEq, Eq)]
pub enum OrderFault {
    /// The words say none.
    Unsaid(VerbFault),
    /// Memory or a store gave out.
    Failed(Fault),
}

impl From<Fault> for OrderFault {
    ghost use Rattle.command_requests.specs.declared.orders.OrderFault.TheVariants.{Failed};

    ghost from_gives = { λ fault why. why ≡ Failed fault };

    fn from(fault: Fault) -> OrderFault {
        OrderFault::Failed(fault)
    }
}

/// Whether the words of a verb name items.
fn names_items(verb: &Verb<'_>) -> bool
    ensures { result ≡ names_items verb.now }
{
    match verb {
        Verb::Join { .. } | Verb::Part { .. } => true,
        Verb::Lend { .. }
        | Verb::Return { .. }
        | Verb::PutTile { .. }
        | Verb::PutMedium { .. }
        | Verb::PutMark { .. } => false,
    }
}

/// The items that the words of a verb may name.
fn items_for<S: Alter + Drop>(
    alloc: Global,
    world: &mut World<S>,
    packages: &[PackageEntry],
    verb: &Verb<'_>,
) -> Result<Vec<ItemEntry>, Fault>
    ensures told { TellsOf S.Store (λ w items. names_items verb.now ≡ true
        → items.items ≡ flat_map (λ p. items_under w p.uuid) packages.now) world.old world.new result }
    ensures read { IsUntouched S.Store world.old world.new }
{
    if !names_items(verb) {
        return Ok(Vec::new(alloc));
    }
    let items = items_among(alloc, world, packages)?;
    Ok(items)
}

/// The request of an order, where its words are said over these packages and items.
fn request_among(
    alloc: Global,
    packages: &[PackageEntry],
    items: &[ItemEntry],
    order: &Order<'_>,
    bytes: Vec<u8>,
) -> Result<Request, OrderFault>
    ensures { MatchResult result
        (AsksAmong (map sight packages.now) items.now order.now bytes.items)
        (IsWhyUnaskedAmong (map sight packages.now) items.now order.now bytes.items) }
{
    let command = match say(alloc, packages, items, &order.verb, bytes) {
        Ok(command) => command,
        Err(fault) => return Err(OrderFault::Unsaid(fault)),
    };
    match request_of(alloc, order.id, order.at, command) {
        Ok(request) => Ok(request),
        Err(_) => Err(OrderFault::Failed(Fault::OutOfMemory)),
    }
}

/// The request of an order over a world, which is only read. Items are looked up only where the words name items.
///
/// # Errors
///
/// Words that say no command, want of memory, or a store that failed. The world has not failed by that.
pub fn request_for<S: Alter + Drop>(
    alloc: Global,
    world: &mut World<S>,
    order: &Order<'_>,
    bytes: Vec<u8>,
) -> Result<Request, OrderFault>
    ensures told { AllClean S.Store world.new.members → (w : ModelWorld) → StandsFor S.Store world.old w
        → MatchResult result (Asks w order.now bytes.items) (IsWhyUnasked w order.now bytes.items) }
    ensures read { IsUntouched S.Store world.old world.new }
{
    let packages = packages_of(alloc, world)?;
    let items = items_for(alloc, world, packages.as_slice(), &order.verb)?;
    request_among(alloc, packages.as_slice(), items.as_slice(), order, bytes)
}
