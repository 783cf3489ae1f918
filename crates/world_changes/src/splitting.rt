//! A split among the members of a world: the child's store is made and committed first, then the
//! parent takes its turn, and the child comes to its place. After the commit that carries the
//! receipt nothing takes memory.
ghost use Rattle.std.specs.Prelude.{◌≡◌, ◌≢◌, ◌++◌, ◌∷◌, [], ℕ, ◌<◌, ◌≤◌, ◌+◌};
ghost use Rattle.std.specs.Prelude.{true, IsTrue, Some, Err, IfOk, OnOk};
ghost use Rattle.std.specs.Prelude.{OnErr, IfErr, length, vec_len, vec_capacity};
ghost use Rattle.sqlite.specs.Held.{state};
ghost use Rattle.sqlite.specs.State.{HasCleanDisk};
ghost use Rattle.sqlite_disk.specs.Disk.{CountsFault, MoreFaults};
ghost use Rattle.sheet_types.specs.Cut.{Cut};
ghost use Rattle.sheet_types.specs.Matrix.{is_good_frame};
ghost use Rattle.sheet_types.specs.Texts.{is_moment};
ghost use Rattle.sheet_types.specs.World.{World, Package};
ghost use Rattle.store_sql.specs.Blank.{IsBlank, no_schema};
ghost use Rattle.store_sql.specs.Staying.{Stays};
ghost use Rattle.store_sql.specs.Transactions.{Rests};
ghost use Rattle.package_tables.specs.Creation.{IsFitInfo};
ghost use Rattle.identity_register.specs.Calls.{HasLastChange};
ghost use Rattle.identity_register.specs.Creation.{new_package, Keeps};
ghost use Rattle.identity_register.specs.Reads.{Reads};
ghost use Rattle.world_changes.specs.Carries.{IsBeforeCommit};
ghost use Rattle.world_changes.specs.Dating.{AreDated, IsDated};
ghost use Rattle.world_loans.specs.Loans.{IsLent, loan};
ghost use Rattle.world_members.specs.Members.{AllRest, AllClean, AllOpen, AllStay, AreMembers};
ghost use Rattle.register_lending.specs.Selecting.{IsSelectionOf, IsPart, MayCome};
ghost use Rattle.transfer.specs.Parcels.{with_cut};
ghost use Rattle.world_loans.specs.ServeFaults.{CountsShelf};
ghost use Rattle.package_tables.specs.declared.fault.Fault.TheVariants.{OutOfMemory};
ghost use Rattle.register_lending.specs.declared.turn_fault.TurnFault.TheVariants.{Before};
ghost use Rattle.world_changes.specs.Giving.{AsksChild, IsUnshelved, LeavesBlankOr, ReturnsUnlent};
ghost use Rattle.world_changes.specs.Splits.{Splits, KeepsLoan, ReadsAsChild, member_of_child};

use crate::taking_turns::lend_at;
use identity_register::selection::Selection;
use package_creation::create::Info;
use package_creation::creation::create;
use package_creation::unmade::Unmade;
use package_tables::fault::Fault;
use register_lending::lending::fill;
use register_lending::turn_fault::TurnFault;
use sheet_types::frame::Frame;
use sheet_types::receipt::Receipt;
use sqlite::{Alter, Connection};
use std::alloc::Global;
use store_shelf::shelf::Shelf;
use store_sql::resting::is_at_rest;
use uuid::Uuid;
use world_loans::loans::{Lending, ServeFault};
use world_members::members::Member;
use world_members::reserving::{insert_reserved, push_reserved};

/// The store of a child: made, with what is selected of its parent in it, and committed. The parent
/// is only read. Where it fails the store is handed back.
fn filled_store<S: Alter + Drop>(
    alloc: Global,
    blank: Connection<S>,
    source: &mut Connection<S>,
    frame: &Frame,
    info: &Info<'_>,
    selection: &Selection,
) -> Result<Connection<S>, Unmade<S>>
    requires blank { HasCleanDisk (state S.Store blank) → IsBlank no_schema (state S.Store blank).now }
    requires source { Rests (state S.Store source.old) }
    requires good { IsTrue (is_good_frame frame.now) }
    requires info { IsFitInfo info.now.depth info.now.loan }
    ensures source { Stays (state S.Store source.old) (state S.Store source.new) }
    ensures opens { HasCleanDisk (state S.Store source.new) → OnOk result
        (IsTrue (state S.Store source.new).is_open) }
    ensures rests { IfOk result (λ made. Rests (state S.Store made)) }
    ensures is_open { IfOk result (λ made. HasCleanDisk (state S.Store made) → IsTrue (state S.Store made).is_open) }
    ensures made { IfOk result (λ made. HasCleanDisk (state S.Store made) → HasCleanDisk (state S.Store source.new)
        → is_moment info.now.created.now ≡ true → (c : Cut) (from : Package) → IsSelectionOf c selection.now
        → Reads frame.now from (state S.Store source.old).now → IsPart c from
        → MayCome c (new_package info.now.package info.now.parent info.now.depth info.now.loan)
        → Keeps frame.now (with_cut c (new_package info.now.package info.now.parent info.now.depth info.now.loan))
        (state S.Store made)) }
    ensures dated { IfOk result (λ made. HasCleanDisk (state S.Store made) → HasCleanDisk (state S.Store source.new)
        → is_moment info.now.created.now ≡ true → (c : Cut) (from : Package) → IsSelectionOf c selection.now
        → Reads frame.now from (state S.Store source.old).now → IsPart c from
        → MayCome c (new_package info.now.package info.now.parent info.now.depth info.now.loan)
        → HasLastChange frame.now info.now.created.now (state S.Store made).now) }
    ensures left { IfErr result (λ unmade. LeavesBlankOr S.Store
        (ReadsAsChild frame.now info.now.created.now (new_package info.now.package info.now.parent info.now.depth
        info.now.loan) selection.now (state S.Store source.old).now (state S.Store source.new)) unmade.conn) }
{
    if !is_at_rest(&blank) {
        return Err(Unmade {
            conn: blank,
            why: Fault::StoreFault,
        });
    }
    let mut made = create(alloc, blank, frame, info)?;
    match fill(source, &mut made, selection, info.created) {
        Ok(()) => Ok(made),
        Err(why) => Err(Unmade { conn: made, why }),
    }
}

/// The store that the shelf gives for a new package.
fn blank_store<S: Alter + Drop, H: Shelf<S>>(
    shelf: &mut H,
    package: Uuid,
) -> Result<Connection<S>, ServeFault>
    ensures blank { IfOk result (λ conn. HasCleanDisk (state S.Store conn)
        → IsBlank no_schema (state S.Store conn).now) }
    ensures early { IfErr result IsBeforeCommit }
    ensures unshelved { IfErr result IsUnshelved }
    ensures shelf { CountsShelf result (H.failures_of shelf.old) (H.failures_of shelf.new) }
    ensures asks { H.asks «package» shelf.old shelf.new }
{
    let blank = shelf.blank(package)?;
    Ok(blank)
}

/// The store of the child of a split that is due: made, filled and committed. The members are only
/// read. Where it fails, a store is given back to the shelf as that of the child.
pub fn child_store<S: Alter + Drop, H: Shelf<S>>(
    members: &mut Vec<Member<S>>,
    shelf: &mut H,
    alloc: Global,
    frame: &Frame,
    due: &Lending,
) -> Result<Connection<S>, ServeFault>
    requires within { due.now.at < length members.old.items }
    requires info { IsFitInfo due.now.depth due.now.receipt.seq }
    requires rests { AllRest S.Store members.old.items }
    requires good { IsTrue (is_good_frame frame.now) }
    ensures rests { AllRest S.Store members.new.items }
    ensures stay { AllStay S.Store members.old.items members.new.items }
    ensures opens { AllClean S.Store members.new.items → OnOk result
        (AllOpen S.Store members.old.items → AllOpen S.Store members.new.items) }
    ensures capacity { vec_capacity members.new ≡ vec_capacity members.old }
    ensures child { IfOk result (λ child. Rests (state S.Store child)) }
    ensures is_open { IfOk result (λ child. HasCleanDisk (state S.Store child)
        → IsTrue (state S.Store child).is_open) }
    ensures keeps { IfOk result (λ child. AllClean S.Store members.new.items → (w next : World) (count : ℕ)
        → frame.now ≡ w.frame → AreMembers S.Store members.old.items count w → (lent : IsLent w next due.now)
        → KeepsLoan S.Store w next due.now lent child) }
    ensures dated { IfOk result (λ child. AllClean S.Store members.new.items → (w next : World) (count : ℕ)
        → frame.now ≡ w.frame → AreMembers S.Store members.old.items count w → IsLent w next due.now
        → IsDated S.Store w.frame due.now.receipt.at child) }
    ensures early { IfErr result IsBeforeCommit }
    ensures shelf { CountsShelf result (H.failures_of shelf.old) (H.failures_of shelf.new) }
    ensures uses { AsksChild S.Store H.takes H.asks frame.now due.now members.old.items members.new.items result
        shelf.old shelf.new }
{
    let blank = blank_store(shelf, due.child)?;
    let info = Info {
        package: due.child,
        parent: Some(due.parent),
        depth: due.depth,
        loan: due.receipt.seq,
        created: due.receipt.at.as_str(),
    };
    let member = &mut members[due.at];
    match filled_store(alloc, blank, &mut member.conn, frame, &info, &due.selection) {
        Ok(child) => Ok(child),
        Err(unmade) => {
            shelf.retire(due.child, unmade.conn.into_store());
            Err(ServeFault::Turn(TurnFault::Before(unmade.why)))
        }
    }
}

/// The member of a child, whose store is filled.
fn child_member<S: Alter + Drop>(due: &Lending, child: Connection<S>) -> Member<S>
    ensures { result ≡ member_of_child due.now child }
{
    Member {
        conn: child,
        uuid: due.child,
        parent: Some(due.parent),
        depth: due.depth,
        loan: due.receipt.seq,
        sums: due.lent,
        ticket: due.receipt.seq,
    }
}

/// Keeps the store of a child whose parent's store failed or may have the change or not; gives it
/// back to the shelf where memory was wanting before the commit. Takes no memory.
fn keep_or_return<S: Alter + Drop, H: Shelf<S>>(
    strays: &mut Vec<Connection<S>>,
    shelf: &mut H,
    package: Uuid,
    child: Connection<S>,
    why: TurnFault,
)
    requires { vec_len strays.old < vec_capacity strays.old }
    ensures kept { why ≢ Before OutOfMemory → strays.new.items ≡ strays.old.items ++ child ∷ [] }
    ensures dropped { why ≡ Before OutOfMemory → strays.new.items ≡ strays.old.items }
    ensures uses { ReturnsUnlent S.Store H.takes «package» child (Err why) shelf.old shelf.new }
    ensures shelf { H.failures_of shelf.new ≡ H.failures_of shelf.old }
    ensures capacity { vec_capacity strays.old ≤ vec_capacity strays.new }
{
    if why.is_lasting() {
        push_reserved(strays, child);
    } else {
        shelf.retire(package, child.into_store());
    }
}

/// The parent lends, and the child comes to its place. Where the parent's store failed or may have
/// the change or not, the child's store is kept among the strays; else the shelf gets it back.
/// After the commit nothing takes memory.
pub fn lend_and_place<S: Alter + Drop, H: Shelf<S>>(
    members: &mut Vec<Member<S>>,
    strays: &mut Vec<Connection<S>>,
    shelf: &mut H,
    due: Lending,
    child: Connection<S>,
) -> Result<Receipt, TurnFault>
    requires at { due.at < length members.old.items }
    requires child_at { due.child_at ≤ length members.old.items }
    requires rests { AllRest S.Store members.old.items }
    requires child { Rests (state S.Store child) }
    requires room { vec_len members.old < vec_capacity members.old }
    requires stray_room { vec_len strays.old < vec_capacity strays.old }
    ensures splits { Splits S.Store due child members.old.items members.new.items strays.old.items strays.new.items
        result }
    ensures dated { OnOk result ((w next : World) (count : ℕ) → AllClean S.Store members.new.items
        → AreMembers S.Store members.old.items count w → IsLent w next due
        → IsDated S.Store w.frame due.receipt.at child
        → AreDated S.Store w.frame due.receipt.at (due.parent ∷ due.child ∷ []) members.new.items) }
    ensures uses { ReturnsUnlent S.Store H.takes due.child child result shelf.old shelf.new }
    ensures shelf { H.failures_of shelf.new ≡ H.failures_of shelf.old }
    ensures capacity { vec_capacity members.new ≡ vec_capacity members.old }
    ensures stray_capacity { vec_capacity strays.old ≤ vec_capacity strays.new }
{
    match lend_at(members, &due) {
        Ok(()) => {
            let member = child_member(&due, child);
            insert_reserved(members, due.child_at, member);
            Ok(due.receipt)
        }
        Err(why) => {
            keep_or_return(strays, shelf, due.child, child, why);
            Err(why)
        }
    }
}
