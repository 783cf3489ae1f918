//! A package with nothing in it: its tables, the rows that each package has, and its head.
ghost use Rattle.std.specs.Prelude.{◌≡◌, Err, IfErr, IfOk, IsTrue};
ghost use Rattle.sqlite.specs.State.{HasCleanDisk};
ghost use Rattle.sqlite.specs.Held.{state};
ghost use Rattle.sheet_types.specs.Matrix.{is_good_frame};
ghost use Rattle.store_sql.specs.Blank.{IsBlank, no_schema};
ghost use Rattle.store_sql.specs.Transactions.{Rests, Holds, Steps, Turns};
ghost use Rattle.package_tables.specs.Calls.{OnTables};
ghost use Rattle.package_tables.specs.Listed.{heads};
ghost use Rattle.package_tables.specs.Changes.{Adds};
ghost use Rattle.package_tables.specs.Creation.{head_of, new_tables, HoldsTables, Fills, IsFitInfo};
ghost use Rattle.package_tables.specs.declared.fault.Fault.{Fault};

use crate::fixed_rows::insert_fixed;
use crate::package::Package;
use crate::schema::create_schema;
use crate::unmade::Unmade;
use package_tables::fault::Fault;
use package_tables::head::insert_head;
use sheet_types::frame::Frame;
use sheet_types::words::OrEmpty;
use sqlite::{Alter, Connection, Transaction};
use std::alloc::Global;
use uuid::Uuid;

/// What the head of a package says (profile): its UUID, its parent (none for the archive), how many
/// levels it is below the archive (0 to 4), the number of its loan (0 for the archive, at most
/// 1,000,000,000), and the moment at which it was made.
#[derive(Clone, Copy)]
pub struct Info<'t> {
    pub package: Uuid,
    pub parent: Option<Uuid>,
    pub depth: u64,
    pub loan: u64,
    pub created: &'t str,
}

/// The row of the head.
fn insert_info<S: Alter>(tx: &mut Transaction<'_, S>, info: &Info<'_>) -> Result<(), Fault>
    requires { IsFitInfo info.now.depth info.now.loan }
    ensures same_reference { tx.new.conn.ghost_name ≡ tx.old.conn.ghost_name }
    ensures steps { Steps (λ _. OnTables (Adds heads (head_of info.now.package info.now.parent info.now.depth
        info.now.loan info.now.created.now))) (state S.Store tx.old.conn.now) (state S.Store tx.new.conn.now) result }
{
    let mut package_buffer = Uuid::encode_buffer();
    let package = info.package.hyphenated().encode_lower(&mut package_buffer);
    let mut parent_buffer = Uuid::encode_buffer();
    let parent = OrEmpty(info.parent).encode_lower(&mut parent_buffer);
    let depth = info.depth as i64;
    let loan = info.loan as i64;
    insert_head(tx, 1, 2, package, parent, depth, loan, info.created)
}

/// All that a new package has.
fn fill<S: Alter>(
    alloc: Global,
    tx: &mut Transaction<'_, S>,
    frame: &Frame,
    info: &Info<'_>,
) -> Result<(), Fault>
    requires frame { IsTrue (is_good_frame frame.now) }
    requires info { IsFitInfo info.now.depth info.now.loan }
    ensures same_reference { tx.new.conn.ghost_name ≡ tx.old.conn.ghost_name }
    ensures steps { Steps (λ _. Fills (new_tables frame.now (head_of info.now.package info.now.parent info.now.depth
        info.now.loan info.now.created.now))) (state S.Store tx.old.conn.now) (state S.Store tx.new.conn.now) result }
{
    create_schema(tx)?;
    insert_fixed(alloc, tx, frame, info.created)?;
    insert_info(tx, info)
}

/// Makes a package in a store that is blank, in one transaction.
fn make<S: Alter>(
    alloc: Global,
    conn: &mut Connection<S>,
    frame: &Frame,
    info: &Info<'_>,
) -> Result<(), Fault>
    requires rests { Rests (state S.Store conn.old) }
    requires frame { IsTrue (is_good_frame frame.now) }
    requires info { IsFitInfo info.now.depth info.now.loan }
    ensures turns { Turns (λ _. Fills (new_tables frame.now (head_of info.now.package info.now.parent info.now.depth
        info.now.loan info.now.created.now))) (state S.Store conn.old) (state S.Store conn.new) result }
{
    let mut tx = conn.transaction();
    fill(alloc, &mut tx, frame, info)?;
    tx.commit()?;
    Ok(())
}

/// Makes a package with nothing in it in a store that is blank: its tables, the rows that each
/// package has (OGC GeoPackage 1.3, 1.1.2, 1.1.3, 2.2.6 and 2.2.7, and OGC 18-000), and its head.
///
/// # Errors
///
/// Where it fails, nothing is committed but where the commit itself failed. The connection is handed back.
pub fn create<S: Alter + Drop>(
    alloc: Global,
    mut conn: Connection<S>,
    frame: &Frame,
    info: &Info<'_>,
) -> Result<Package<S>, Unmade<S>>
    requires rests { Rests (state S.Store conn) }
    requires frame { IsTrue (is_good_frame frame.now) }
    requires info { IsFitInfo info.now.depth info.now.loan }
    ensures made { (HasCleanDisk (state S.Store conn) → IsBlank no_schema (state S.Store conn).now)
        → IfOk result (λ made. HasCleanDisk (state S.Store made.conn)
        → HoldsTables (state S.Store made.conn).now (new_tables frame.now
        (head_of info.now.package info.now.parent info.now.depth info.now.loan info.now.created.now))
        × Holds (state S.Store made.conn) (state S.Store made.conn).now) }
    ensures rests { IfOk result (λ made. Rests (state S.Store made.conn)) }
    ensures clean { IfOk result (λ made. HasCleanDisk (state S.Store made.conn)
        → HasCleanDisk (state S.Store conn)) }
    ensures failed { IfErr result (λ unmade. Turns {X = Unit {0}} {E = Fault}
        (λ _. Fills (new_tables frame.now (head_of info.now.package info.now.parent info.now.depth info.now.loan
        info.now.created.now))) (state S.Store conn) (state S.Store unmade.conn) (Err unmade.why)) }
{
    match make(alloc, &mut conn, frame, info) {
        Ok(()) => Ok(Package { conn }),
        Err(why) => Err(Unmade { conn, why }),
    }
}
