//! Whether a request would leave too many: a package past its limits, too many packages or too many
//! receipts. What each package holds is kept, so nothing is counted.
ghost use Rattle.std.specs.Prelude.{◌≡◌, ◌<◌, length, slice_get, Some};
ghost use Rattle.std.specs.List.{list_any};
ghost use Rattle.world_members.specs.Steps.{is_past_limits};
ghost use Rattle.world_queries.specs.TooMany.{sums_with, leaves_too_many, TooManyUncounted, MemberHolds};
ghost use Rattle.world_queries.specs.TooMany.{MembersHoldNext, MembersTellTooMany, MembersTellUncounted};

use sheet_types::checks::{GREATEST_ITEMS, GREATEST_LINKS, GREATEST_PACKAGES, GREATEST_RECEIPTS};
use sheet_types::receipt::Sums;
use sqlite::Alter;
use world_members::members::Member;

/// Whether so much is past a limit of a package.
pub fn is_past_limits(held: Sums) -> bool
    ensures { result ≡ is_past_limits held }
{
    held.tiles > GREATEST_ITEMS
        || held.media > GREATEST_ITEMS
        || held.rows > GREATEST_ITEMS
        || held.links > GREATEST_LINKS
}

/// What the member at a place holds, with these sums for the one whose package changes.
fn sums_at<S: Alter + Drop>(members: &[Member<S>], at: usize, sums: Sums, place: usize) -> Sums
    requires within { place < length members.now }
    ensures { slice_get (sums_with members.now at sums) place ≡ Some result }
{
    if place == at {
        return sums;
    }
    members[place].sums
}

/// Whether a member is past the limits, with these sums for the one whose package changes.
pub fn any_past_limits<S: Alter + Drop>(members: &[Member<S>], at: usize, sums: Sums) -> bool
    ensures { result ≡ list_any is_past_limits (sums_with members.now at sums) }
{
    for place in 0..members.len() {
        if is_past_limits(sums_at(members, at, sums, place)) {
            return true;
        }
    }
    false
}

/// Whether a request would leave too many, with the sums that it leaves of the member whose package
/// it changes, and the number of receipts so far.
pub fn is_too_many<S: Alter + Drop>(
    members: &[Member<S>],
    at: usize,
    sums: Sums,
    count: u64,
) -> bool
    ensures { result ≡ leaves_too_many members.now at sums count }
{
    if any_past_limits(members, at, sums) {
        return true;
    }
    if members.len() > GREATEST_PACKAGES {
        return true;
    }
    count >= GREATEST_RECEIPTS
}

/// What the package of a command holds after it cannot be counted only where the request would leave too many.
pub fn too_many_uncounted()
    ensures { TooManyUncounted }
{}

/// The sums that are kept of a package are those of what it holds.
pub fn member_holds<S: Alter + Drop>()
    ensures { MemberHolds S.Store }
{}

/// With the sums after a command in the place of its package, the members tell what each package
/// holds after the request.
pub fn members_hold_next<S: Alter + Drop>()
    ensures { MembersHoldNext S.Store }
{}

/// With those sums the members tell whether the request would leave too many.
pub fn members_tell_too_many<S: Alter + Drop>()
    ensures { MembersTellTooMany S.Store }
{}

/// Where those sums cannot be counted, it would.
pub fn members_tell_uncounted<S: Alter + Drop>()
    ensures { MembersTellUncounted S.Store }
{}
