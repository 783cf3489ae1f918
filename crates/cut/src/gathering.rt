//! What comes along with a start, and all links of that.
ghost use Rattle.std.specs.Prelude.{◌≡◌, ◌&&◌, flat_map, IfOk};
ghost use Rattle.sheet_types.specs.Cut.{strict_set, in_each};
ghost use Rattle.sheet_types.specs.World.{kind_is, other_kind};
ghost use Rattle.sheet_types.specs.declared.receipt.MovedKind.TheVariants.{MediaItem};
ghost use Rattle.identity_register.specs.Reach.{Asks, links_of};
ghost use Rattle.cut.specs.Gathering.{IsGroup, has_member, leads_to_media, media_at, ends_of, Gathers, HasStart};

use crate::group::Group;
use identity_register::reach::Reach;
use package_tables::fault::Fault;
use sheet_types::command::{Mapping, Relation};
use std::alloc::Global;
use uuid::Uuid;

/// Items, and the links of each.
#[derive(Drop)]
pub(crate) struct Gathered {
    pub(crate) items: Group,
    pub(crate) links: Vec<Relation>,
}

/// Whether the other end of a mapping's links is a medium.
fn leads_to_media(mapping: Mapping) -> bool
    ensures { result ≡ kind_is MediaItem (other_kind mapping) }
{
    match mapping {
        Mapping::TilesMedia | Mapping::RowsMedia => true,
        Mapping::RowsTiles => false,
    }
}

/// The links of each of these.
fn links_of_each<R: Reach>(
    reach: &mut R,
    ids: &[Uuid],
    alloc: Global,
) -> Result<Vec<Relation>, Fault>
    requires { R.can_ask reach.old }
    ensures { Asks R.can_ask R.stays R.shows (λ p found. found.items ≡ flat_map (links_of p) ids.now) reach.old
        reach.new result }
{
    let mut links = Vec::new(alloc);
    for id in ids {
        let found = reach.links_of(*id, alloc)?;
        links.extend_from_slice(&found)?;
    }
    Ok(links)
}

/// Whether a link leads from the group to a medium.
fn brings_medium(link: &Relation, group: &Group) -> bool
    requires { IsGroup group.now }
    ensures { result ≡ (leads_to_media link.now && has_member group.now link.now.base) }
{
    leads_to_media(link.mapping) && group.has(link.base)
}

/// The media at the other ends of the links whose bases are in the group.
fn media_of(links: &[Relation], group: &Group, alloc: Global) -> Result<Vec<Uuid>, Fault>
    requires { IsGroup group.now }
    ensures { IfOk result (λ media. media.items ≡ media_at (has_member group.now) links.now) }
{
    let mut media = Vec::new(alloc);
    for link in links {
        if brings_medium(link, group) {
            media.push(link.other)?;
        }
    }
    Ok(media)
}

/// Both ends of each link.
fn ends_of(links: &[Relation], alloc: Global) -> Result<Vec<Uuid>, Fault>
    ensures { IfOk result (λ ends. ends.items ≡ flat_map ends_of links.now) }
{
    let mut ends = Vec::new(alloc);
    for link in links {
        ends.push(link.base)?;
        ends.push(link.other)?;
    }
    Ok(ends)
}

/// The start and the media linked to it. Each item is asked once for its links.
pub(crate) fn strict<R: Reach>(
    reach: &mut R,
    start: &[Uuid],
    alloc: Global,
) -> Result<Gathered, Fault>
    requires { R.can_ask reach.old }
    ensures group { IfOk result (λ g. IsGroup g.items) }
    ensures asks { Asks R.can_ask R.stays R.shows (λ p g. Gathers p (strict_set p start.now) g) reach.old reach.new
        result }
{
    let mut items = Group::new(alloc);
    items.enter_all(start)?;
    let mut links = links_of_each(reach, &items.order, alloc)?;
    let first = items.order.len();
    let media = media_of(&links, &items, alloc)?;
    items.enter_all(&media)?;
    let others = links_of_each(reach, items.behind(first), alloc)?;
    links.extend_from_slice(&others)?;
    Ok(Gathered { items, links })
}

/// The start and all that links lead to from it. Each item comes into the list once, and is asked once for its links.
pub(crate) fn follow<R: Reach>(
    reach: &mut R,
    start: &[Uuid],
    alloc: Global,
) -> Result<Gathered, Fault>
    requires { R.can_ask reach.old }
    ensures group { IfOk result (λ g. IsGroup g.items) }
    ensures asks { Asks R.can_ask R.stays R.shows (λ p g. HasStart p start.now → Gathers p (in_each p start.now) g)
        reach.old reach.new result }
{
    let mut items = Group::new(alloc);
    items.enter_all(start)?;
    let mut links = Vec::new(alloc);
    let mut next = 0;
    while next < items.order.len() {
        let found = reach.links_of(items.order[next], alloc)?;
        let ends = ends_of(&found, alloc)?;
        items.enter_all(&ends)?;
        links.extend_from_slice(&found)?;
        next += 1;
    }
    Ok(Gathered { items, links })
}
