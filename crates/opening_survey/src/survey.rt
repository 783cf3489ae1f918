//! What the opening of a world sees of a store.
ghost use Rattle.std.specs.Prelude.{◌≡◌, false, map, Some};
ghost use Rattle.sqlite.specs.Held.{state};
ghost use Rattle.store_sql.specs.Transactions.{Rests};
ghost use Rattle.package_schema.specs.Looking.{LooksAt};
ghost use Rattle.opening_survey.specs.Looks.{IsSeenRight};
ghost use Rattle.opening_survey.specs.Surveying.{IsSeenWithout, SeesFormed};

use crate::forms::{Formed, read_formed};
use crate::held::held_of;
use crate::laws::reads_as_a_package;
use crate::said::{Said, read_said};
use crate::ties::has_good_ties;
use opening_faults::sights::{Sight, StoreHead};
use opening_verdict::seen::StoreSeen;
use package_tables::fault::Fault;
use sheet_balance::sights::Sight as PackageSight;
use sheet_types::collections::MovedList;
use sheet_types::frame::Frame;
use sqlite::{Alter, Connection};
use std::alloc::Global;
use uuid::Uuid;

/// What stands where a store has no frame.
pub const fn no_frame() -> Frame {
    Frame {
        srs_id: 0,
        min_x: 0,
        min_y: 0,
        max_x: 0,
        max_y: 0,
        tile_width: 0,
        tile_height: 0,
        first_zoom: 0,
        levels: 0,
        matrix_width: 0,
        matrix_height: 0,
    }
}

/// What stands where a store has no package.
fn nothing_held(alloc: Global) -> PackageSight {
    PackageSight {
        uuid: Uuid::nil(),
        parent: None,
        loan: 0,
        items: MovedList::from_vec(Vec::new(alloc)),
        links: MovedList::from_vec(Vec::new(alloc)),
        receipts: Vec::new(alloc),
    }
}

/// A store of which no package is read.
pub fn without_package(alloc: Global, said: Said, frame: Frame, is_formed: bool) -> StoreSeen
    ensures { IsSeenWithout said frame is_formed result }
{
    StoreSeen {
        sight: Sight {
            head: said.head,
            claims: said.claims,
            frame,
        },
        is_formed,
        is_tied: false,
        held: nothing_held(alloc),
    }
}

/// Whose the store is.
fn head_in(said: &Said) -> Option<StoreHead>
    ensures { result ≡ said.now.head }
{
    said.head
}

/// What is seen of a store of this head and these claims, whose tables have their form and say this
/// frame and these receipts.
fn survey_formed<S: Alter>(
    conn: &mut Connection<S>,
    alloc: Global,
    head: StoreHead,
    said: Said,
    formed: Formed,
) -> Result<StoreSeen, Fault>
    requires rests { Rests (state S.Store conn.old) }
    requires heads { said.head ≡ Some head }
    ensures { LooksAt (SeesFormed said formed) (state S.Store conn.old) (state S.Store conn.new) result }
{
    if !has_good_ties(conn, alloc)? {
        return Ok(without_package(alloc, said, formed.frame, true));
    }
    let held = held_of(conn, alloc, head, formed.receipts)?;
    reads_as_a_package();
    Ok(StoreSeen {
        sight: Sight {
            head: said.head,
            claims: said.claims,
            frame: formed.frame,
        },
        is_formed: true,
        is_tied: true,
        held,
    })
}

/// What the opening of a world sees of a store: whose it is, what its splits and merges claim,
/// whether it is a package, and which. One content is in memory at a time, until it is told by its digest.
///
/// # Errors
///
/// `OutOfMemory` where a growth was refused, and `StoreFault` where the store failed, a text is no
/// UTF-8, or a row is there twice. The store is as it was.
pub fn survey<S: Alter>(conn: &mut Connection<S>, alloc: Global) -> Result<StoreSeen, Fault>
    requires { Rests (state S.Store conn.old) }
    ensures { LooksAt IsSeenRight (state S.Store conn.old) (state S.Store conn.new) result }
{
    let said = read_said(conn, alloc)?;
    let Some(head) = head_in(&said) else {
        return Ok(without_package(alloc, said, no_frame(), false));
    };
    let Some(formed) = read_formed(conn, alloc)? else {
        return Ok(without_package(alloc, said, no_frame(), false));
    };
    survey_formed(conn, alloc, head, said, formed)
}
