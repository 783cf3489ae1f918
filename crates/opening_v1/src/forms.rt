//! Whether the fourteen tables of a store of the first version have their form, and the frame that they then say.
ghost use Rattle.std.specs.Prelude.{◌↔◌, ⊤, MatchOption, IfOk, IsTrue};
ghost use Rattle.sqlite.specs.Held.{state};
ghost use Rattle.sheet_types.specs.Matrix.{is_good_frame};
ghost use Rattle.store_sql.specs.Transactions.{Rests};
ghost use Rattle.package_schema.specs.Looking.{LooksAt};
ghost use Rattle.opening_v1.specs.Surveying.{ReadsFirstFormed};

use matrix_rules::check::FrameRules;
use package_schema::first_frames::{is_dated, read_first_frame};
use package_schema::form::has_first_form;
use package_tables::fault::Fault;
use sheet_types::frame::Frame;
use sqlite::{Alter, Connection};
use std::alloc::Global;

/// Whether no rule of a frame is broken.
fn is_good(frame: &Frame) -> bool
    ensures { IsTrue result ↔ IsTrue (is_good_frame frame.now) }
{
    match frame.check() {
        Ok(()) => true,
        Err(_) => false,
    }
}

/// The frame whose fixed rows a store has, with a moment each, where its fourteen tables have their
/// form and nothing has a name that the second version needs; `None` where the store is not formed.
///
/// # Errors
///
/// Want of memory, or a store that failed.
pub(crate) fn read_first_formed<S: Alter>(
    conn: &mut Connection<S>,
    alloc: Global,
) -> Result<Option<Frame>, Fault>
    requires { Rests (state S.Store conn.old) }
    ensures looked { LooksAt ReadsFirstFormed (state S.Store conn.old) (state S.Store conn.new) result }
    ensures good { IfOk result (λ found. MatchOption found ⊤ (λ f. IsTrue (is_good_frame f))) }
{
    if !has_first_form(conn)? {
        return Ok(None);
    }
    let Some(frame) = read_first_frame(conn, alloc)? else {
        return Ok(None);
    };
    // A disk that does not give back what was written may show a frame that is not good, and a copy
    // is made of a good one alone.
    if !is_good(&frame) {
        return Ok(None);
    }
    if !is_dated(conn, alloc)? {
        return Ok(None);
    }
    Ok(Some(frame))
}
