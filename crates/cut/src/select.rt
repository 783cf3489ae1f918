//! The cut of a package.
ghost use Rattle.std.specs.Prelude.{◌≡◌, IfOk, IsTrue};
ghost use Rattle.sqlite.specs.Held.{state};
ghost use Rattle.store_sql.specs.Staying.{Stays};
ghost use Rattle.store_sql.specs.Transactions.{Rests, Looks};
ghost use Rattle.sheet_types.specs.Matrix.{is_good_frame, is_good_rect};
ghost use Rattle.sheet_types.specs.Ordered.{IsArranged};
ghost use Rattle.sheet_types.specs.World.{link_key};
ghost use Rattle.identity_register.specs.Calls.{Sees};
ghost use Rattle.identity_register.specs.Reach.{Asks};
ghost use Rattle.cut.specs.Gathering.{AreSameLinks, IsGroup, IsLeast, IsTorn, has_member, lesser, torn_end, torn_ends};
ghost use Rattle.cut.specs.Gathering.{brought_along, Gathers, HasStart, Sorts};
ghost use Rattle.cut.specs.Taken.{IsCutOf};

use crate::gathering::{Gathered, follow, strict};
use crate::group::Group;
use crate::starting::start;
use identity_register::kinds::TILE;
use identity_register::reach::Reach;
use identity_register::selection::Selection;
use package_tables::fault::Fault;
use package_tables::identities::identity_by_key;
use sheet_types::command::{Mode, Relation};
use sheet_types::frame::{Frame, Rect};
use sheet_types::refusal::Refusal;
use sheet_types::sorting::{link_is_before, uuid_is_before};
use sqlite::{Alter, Connection};
use std::alloc::Global;
use uuid::Uuid;

/// The one end of a link that is in the group, where the other isn't.
fn torn_end(link: &Relation, group: &Group) -> Option<Uuid>
    requires { IsGroup group.now }
    ensures { result ≡ torn_end (has_member group.now) link.now }
{
    let base = group.has(link.base);
    let media = group.has(link.other);
    if base == media {
        None
    } else if base {
        Some(link.base)
    } else {
        Some(link.other)
    }
}

/// The lesser of two, where there are two.
fn lesser(least: Option<Uuid>, end: Option<Uuid>) -> Option<Uuid>
    ensures { result ≡ lesser least end }
{
    let Some(id) = end else {
        return least;
    };
    let Some(known) = least else {
        return end;
    };
    if uuid_is_before(id, known) {
        end
    } else {
        least
    }
}

/// The least item of the group that has a link with an end outside it.
fn torn_item(gathered: &Gathered) -> Option<Uuid>
    requires { IsGroup gathered.now.items }
    ensures { IsLeast (torn_ends (has_member gathered.now.items) gathered.now.links.items) result }
{
    let mut least = None;
    for link in &gathered.links {
        least = lesser(least, torn_end(link, &gathered.items));
    }
    least
}

/// The item of which a strict cut would take one end of a link alone.
fn torn(gathered: &Gathered, mode: Mode) -> Option<Uuid>
    requires { IsGroup gathered.now.items }
    ensures { IsTorn gathered.now mode result }
{
    match mode {
        Mode::Strict => torn_item(gathered),
        Mode::Follow => None,
    }
}

/// Links by mapping, base and medium, each once.
fn links_in_order(mut links: Vec<Relation>) -> Result<Vec<Relation>, Fault>
    ensures order { IfOk result (λ sorted. IsArranged link_key sorted.items) }
    ensures same { IfOk result (λ sorted. AreSameLinks sorted.items links.items) }
{
    links.sort_unstable_by_key(|link| (link.mapping.link_kind().number(), link.base, link.other));
    links.dedup();
    if links.is_sorted_by(|link, next| link_is_before(link, next)) {
        Ok(links)
    } else {
        Err(Fault::StoreFault)
    }
}

/// What was gathered, sorted.
fn selection_of(gathered: Gathered, alloc: Global) -> Result<Selection, Fault>
    requires { IsGroup gathered.items }
    ensures { IfOk result (Sorts gathered) }
{
    let Gathered { items, links } = gathered;
    Ok(Selection {
        identities: items.into_sorted(alloc)?,
        links: links_in_order(links)?,
    })
}

/// What comes along with a start.
fn gather<R: Reach>(
    reach: &mut R,
    start: &[Uuid],
    mode: Mode,
    alloc: Global,
) -> Result<Gathered, Fault>
    requires { R.can_ask reach.old }
    ensures group { IfOk result (λ g. IsGroup g.items) }
    ensures asks { Asks R.can_ask R.stays R.shows (λ p g. HasStart p start.now
        → Gathers p (brought_along p mode start.now) g) reach.old reach.new result }
{
    match mode {
        Mode::Strict => strict(reach, start, alloc),
        Mode::Follow => follow(reach, start, alloc),
    }
}

/// The cut of a good rectangle of a good frame, by the questions of a reach; or the refusal that
/// says why there is none.
///
/// # Errors
/// `Fault` is want of memory, or a package that could not be read.
pub fn select_over<R: Reach>(
    reach: &mut R,
    frame: &Frame,
    rect: &Rect,
    mode: Mode,
    alloc: Global,
) -> Result<Result<Selection, Refusal>, Fault>
    requires ready { R.can_ask reach.old }
    requires frame { IsTrue (is_good_frame frame.now) }
    requires rect { IsTrue (is_good_rect frame.now rect.now) }
    ensures { Asks R.can_ask R.stays R.shows (IsCutOf frame.now mode rect.now) reach.old reach.new result }
{
    let start = start(reach, frame, rect, alloc)?;
    if start.is_empty() {
        return Ok(Err(Refusal::NothingToLend));
    }
    let gathered = gather(reach, &start, mode, alloc)?;
    if let Some(id) = torn(&gathered, mode) {
        return Ok(Err(Refusal::CutLink(id)));
    }
    let selection = selection_of(gathered, alloc)?;
    Ok(Ok(selection))
}

/// The cut of a good rectangle of a good frame out of a package of that frame; or the refusal that
/// says why there is none.
///
/// # Errors
/// `Fault` is want of memory, or a store that failed; the store is only read, whatever comes.
pub fn select<S: Alter>(
    conn: &mut Connection<S>,
    alloc: Global,
    frame: &Frame,
    rect: &Rect,
    mode: Mode,
) -> Result<Result<Selection, Refusal>, Fault>
    requires rests { Rests (state S.Store conn.old) }
    requires frame { IsTrue (is_good_frame frame.now) }
    requires rect { IsTrue (is_good_rect frame.now rect.now) }
    ensures stays { Stays (state S.Store conn.old) (state S.Store conn.new) }
    ensures selected { Looks (Sees (λ f. IsCutOf frame.now mode rect.now)) (state S.Store conn.old)
        (state S.Store conn.new) result }
{
    let answer = select_over(conn, frame, rect, mode, alloc)?;
    // A store may be shut by an error alone, so one that answers now was open all along.
    identity_by_key(conn, TILE, 0)?;
    Ok(answer)
}
