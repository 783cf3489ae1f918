//! The first member of a world: the archive, with nothing in it.
ghost use Rattle.std.specs.Prelude.{◌≡◌, true, IfOk, IsTrue, length};
ghost use Rattle.sqlite.specs.Held.{state};
ghost use Rattle.sqlite.specs.State.{HasCleanDisk};
ghost use Rattle.sheet_types.specs.Matrix.{is_good_frame};
ghost use Rattle.sheet_types.specs.Texts.{is_moment};
ghost use Rattle.sheet_types.specs.World.{new_world};
ghost use Rattle.store_sql.specs.Blank.{IsBlank, no_schema};
ghost use Rattle.world_members.specs.Members.{AllRest, AllClean, AllOpen, AllMadeAt, AreMembers};

use identity_register::fitting::fits;
use package_creation::create::Info;
use package_creation::creation::create;
use package_tables::fault::Fault;
use sheet_types::frame::{Frame, FrameFault};
use sheet_types::receipt::Sums;
use sqlite::{Alter, Connection};
use std::alloc::Global;
use store_sql::resting::is_at_rest;
use uuid::Uuid;
use world_members::members::Member;
use world_members::reserving::push_reserved;

/// Why no world was made.
#[derive(Clone, Copy, PartialEq, Eq)]
pub enum CreateFault {
    /// The frame is not good: the first rule that it breaks.
    BadFrame(FrameFault),
    /// The moment of its making is none.
    BadText,
    /// A growth was refused, or the store failed or was inside a transaction.
    Failed(Fault),
}

impl From<Fault> for CreateFault {
    ghost use Rattle.world.specs.declared.creating.CreateFault.TheVariants.{Failed};

    ghost from_gives = { λ fault why. why ≡ Failed fault };

    fn from(fault: Fault) -> CreateFault {
        CreateFault::Failed(fault)
    }
}

/// The archive alone, in a store that is blank where its disk is clean. Its place among the members
/// is there before anything is written.
pub(crate) fn archive_alone<S: Alter + Drop>(
    alloc: Global,
    conn: Connection<S>,
    archive: Uuid,
    at: &str,
    frame: &Frame,
) -> Result<Vec<Member<S>>, Fault>
    requires blank { HasCleanDisk (state S.Store conn) → IsBlank no_schema (state S.Store conn).now }
    requires good { IsTrue (is_good_frame frame.now) }
    requires moment { is_moment at.now ≡ true }
    ensures rests { IfOk result (λ members. AllRest S.Store members.items) }
    ensures one { IfOk result (λ members. length members.items ≡ 1) }
    ensures clean { IfOk result (λ members. AllClean S.Store members.items → HasCleanDisk (state S.Store conn)) }
    ensures made { IfOk result (λ members. AllClean S.Store members.items
        → AreMembers S.Store members.items 0 (new_world archive frame.now)) }
    ensures dated { IfOk result (λ members. AllClean S.Store members.items
        → AllMadeAt S.Store frame.now at.now members.items) }
    ensures opens { IfOk result (λ members. AllClean S.Store members.items → AllOpen S.Store members.items) }
{
    if !is_at_rest(&conn) {
        return Err(Fault::StoreFault);
    }
    fits(archive);
    let mut members = Vec::with_capacity(alloc, 1)?;
    let info = Info {
        package: archive,
        parent: None,
        depth: 0,
        loan: 0,
        created: at,
    };
    let conn = create(alloc, conn, frame, &info)?;
    let sums = Sums {
        tiles: 0,
        media: 0,
        rows: 0,
        links: 0,
        bytes: 0,
    };
    let member = Member {
        conn,
        uuid: archive,
        parent: None,
        depth: 0,
        loan: 0,
        sums,
        ticket: 0,
    };
    push_reserved(&mut members, member);
    Ok(members)
}
