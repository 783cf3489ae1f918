//! A package that comes into being.
ghost use Rattle.std.specs.Prelude.{◌≡◌, true, IfErr, IfOk, IsTrue};
ghost use Rattle.sqlite.specs.State.{HasCleanDisk};
ghost use Rattle.sqlite.specs.Held.{state};
ghost use Rattle.sheet_types.specs.Matrix.{is_good_frame};
ghost use Rattle.sheet_types.specs.Texts.{is_moment};
ghost use Rattle.store_sql.specs.Blank.{IsBlank, no_schema};
ghost use Rattle.store_sql.specs.Transactions.{Rests};
ghost use Rattle.package_tables.specs.Creation.{IsFitInfo};
ghost use Rattle.identity_register.specs.Creation.{new_package, Keeps, IsMadeAt};
ghost use Rattle.package_creation.specs.Unmaking.{IsUnmade};

use crate::create::{Info, create as create_tables};
use crate::unmade::Unmade;
use identity_register::fitting::{fits, fits_if_there};
use sheet_types::frame::Frame;
use sqlite::{Alter, Connection};
use std::alloc::Global;

/// Makes the package that a head tells, with no items, no links and no receipts, in a store that is
/// blank where its disk is clean. It reads as that package where the moment of making is one.
///
/// # Errors
///
/// Where it fails, nothing is committed but where the commit itself failed. The connection is handed back.
pub fn create<S: Alter + Drop>(
    alloc: Global,
    conn: Connection<S>,
    frame: &Frame,
    info: &Info<'_>,
) -> Result<Connection<S>, Unmade<S>>
    requires rests { Rests (state S.Store conn) }
    requires frame { IsTrue (is_good_frame frame.now) }
    requires info { IsFitInfo info.now.depth info.now.loan }
    ensures made { is_moment info.now.created.now ≡ true → (HasCleanDisk (state S.Store conn)
        → IsBlank no_schema (state S.Store conn).now) → IfOk result (λ made. HasCleanDisk (state S.Store made)
        → Keeps frame.now (new_package info.now.package info.now.parent info.now.depth info.now.loan)
        (state S.Store made)) }
    ensures dated { (HasCleanDisk (state S.Store conn) → IsBlank no_schema (state S.Store conn).now)
        → IfOk result (λ made. HasCleanDisk (state S.Store made)
        → IsMadeAt frame.now info.now.created.now (state S.Store made)) }
    ensures rests { IfOk result (λ made. Rests (state S.Store made)) }
    ensures clean { IfOk result (λ made. HasCleanDisk (state S.Store made) → HasCleanDisk (state S.Store conn)) }
    ensures failed { IfErr result (λ unmade. IsUnmade frame.now
        (new_package info.now.package info.now.parent info.now.depth info.now.loan) info.now.created.now
        (state S.Store conn) (state S.Store unmade.conn)) }
{
    fits(info.package);
    fits_if_there(info.parent);
    match create_tables(alloc, conn, frame, info) {
        Ok(package) => Ok(package.into_connection()),
        Err(unmade) => Err(unmade),
    }
}
