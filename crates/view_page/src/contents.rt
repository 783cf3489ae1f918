//! What the packages of a world hold, without the bytes of it.
ghost use Rattle.std.specs.Prelude.{◌≡◌, ◌++◌, [], ◌∷◌, map, IfOk, OnOk};
ghost use Rattle.view_page.specs.Registers.{AreContents, by_depth, tie_of};
ghost use Rattle.world.specs.Reading.{sight_of};
ghost use Rattle.world.specs.Worlds.{IsRead, TellsOf};
ghost use Rattle.command_requests.specs.Listing.{IsUntouched};

use package_tables::fault::Fault;
use sheet_types::command::{Item, Relation};
use sqlite::Alter;
use std::alloc::{AllocError, Global};
use uuid::Uuid;
use view_items::parts::{Part, parts_in};
use view_report::registers::{Thing, Tie, thing_of};
use world::reading::PackageSight;
use world::world::World;

/// Items and links of packages, each with its holder.
#[derive(Drop)]
pub struct Contents {
    pub things: Vec<Thing>,
    pub ties: Vec<Tie>,
}

/// An item of a package, without its bytes.
#[derive(Clone, Copy)]
struct ThingOf {
    holder: Uuid,
}

impl Part<Thing> for ThingOf {
    ghost use Rattle.std.specs.Prelude.{[], ◌∷◌};
    ghost use Rattle.view_report.specs.Registers.{thing_of};

    ghost parts = { λ part item. thing_of part.holder item ∷ [] };

    fn put(&self, _alloc: Global, item: &Item, kept: &mut Vec<Thing>) -> Result<(), Fault> {
        let Ok(thing) = thing_of(self.holder, item) else {
            return Err(Fault::OutOfMemory);
        };
        kept.push(thing)?;
        Ok(())
    }
}

/// A link of a package.
fn tie_of(holder: Uuid, link: &Relation) -> Tie
    ensures { result ≡ tie_of holder link.now }
{
    Tie {
        holder,
        kind: link.mapping.link_kind(),
        base: link.base,
        other: link.other,
    }
}

/// The links of a package, in their order.
fn ties_of(alloc: Global, holder: Uuid, links: &[Relation]) -> Result<Vec<Tie>, Fault>
    ensures { IfOk result (λ ties. ties.items ≡ map (tie_of holder) links.now) }
{
    let mut ties = Vec::new(alloc);
    for link in links {
        ties.push(tie_of(holder, link))?;
    }
    Ok(ties)
}

/// What a package of a world holds.
fn contents_in<S: Alter + Drop>(
    alloc: Global,
    world: &mut World<S>,
    holder: Uuid,
) -> Result<Contents, Fault>
    ensures told { TellsOf S.Store (λ w contents. AreContents w (λ u. u) (holder ∷ []) contents) world.old world.new
        result }
    ensures read { IsRead S.Store world.old world.new }
{
    let (things, links) = parts_in(alloc, world, holder, &ThingOf { holder })?;
    let ties = ties_of(alloc, holder, links.as_slice())?;
    Ok(Contents { things, ties })
}

/// Puts the contents of a package behind those of others.
fn append(all: &mut Contents, more: Contents) -> Result<(), AllocError>
    ensures things { OnOk result (all.new.things.items ≡ all.old.things.items ++ more.things.items) }
    ensures ties { OnOk result (all.new.ties.items ≡ all.old.ties.items ++ more.ties.items) }
{
    let Contents {
        mut things,
        mut ties,
    } = more;
    all.things.append(&mut things)?;
    all.ties.append(&mut ties)
}

/// What packages that a world listed hold, in turn.
pub(crate) fn contents_among<S: Alter + Drop>(
    alloc: Global,
    world: &mut World<S>,
    sights: &[PackageSight],
) -> Result<Contents, Fault>
    ensures told { TellsOf S.Store (λ w contents. AreContents w (λ s. s.uuid) sights.now contents) world.old world.new
        result }
    ensures read { IsUntouched S.Store world.old world.new }
{
    let mut all = Contents {
        things: Vec::new(alloc),
        ties: Vec::new(alloc),
    };
    for sight in sights {
        let more = contents_in(alloc, world, sight.uuid)?;
        append(&mut all, more)?;
    }
    Ok(all)
}

/// The packages with lenders before their loans.
pub(crate) fn in_depth(
    alloc: Global,
    sights: &[PackageSight],
) -> Result<Vec<PackageSight>, AllocError>
    ensures { IfOk result (λ ordered. map sight_of ordered.items ≡ by_depth (map sight_of sights.now)) }
{
    let mut ordered = Vec::from_slice(alloc, sights)?;
    ordered.sort_by_key(|sight: &PackageSight| sight.depth)?;
    Ok(ordered)
}
