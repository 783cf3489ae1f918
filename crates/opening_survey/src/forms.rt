//! Whether all tables of a store have their form, and the frame and the receipts that they then say.
ghost use Rattle.std.specs.Prelude.{◌≡◌, ◌↔◌, IsTrue};
ghost use Rattle.sqlite.specs.Held.{state};
ghost use Rattle.sheet_types.specs.Matrix.{is_good_frame};
ghost use Rattle.store_sql.specs.Transactions.{Rests};
ghost use Rattle.package_tables.specs.Calls.{LooksUp};
ghost use Rattle.package_schema.specs.Looking.{LooksAt};
ghost use Rattle.opening_survey.specs.Looks.{ReadsFramed};
ghost use Rattle.opening_survey.specs.Surveying.{ReadsFormed};

use matrix_rules::check::FrameRules;
use package_items::ranges::are_in_range;
use package_receipts::receipts;
use package_schema::form::has_form;
use package_schema::frames::{are_dated, read_frame};
use package_tables::fault::Fault;
use sheet_types::frame::Frame;
use sheet_types::receipt::Receipt;
use sqlite::{Alter, Connection};
use std::alloc::Global;

/// What tables in their form say beside the head: whose frame their fixed rows are, and the
/// receipts in the order of their numbers.
#[derive(Drop)]
pub(crate) struct Formed {
    pub frame: Frame,
    pub receipts: Vec<Receipt>,
}

/// Whether no rule of a frame is broken.
fn is_good(frame: &Frame) -> bool
    ensures { IsTrue result ↔ IsTrue (is_good_frame frame.now) }
{
    match frame.check() {
        Ok(()) => true,
        Err(_) => false,
    }
}

/// The frame whose fixed rows the tables have, where each last change has a moment and the rows of
/// items and links are in their ranges; `None` where there is no such frame.
fn read_good_frame<S: Alter>(
    conn: &mut Connection<S>,
    alloc: Global,
) -> Result<Option<Frame>, Fault>
    requires { Rests (state S.Store conn.old) }
    ensures { LooksUp ReadsFramed (state S.Store conn.old) (state S.Store conn.new) result }
{
    let Some(frame) = read_frame(conn, alloc)? else {
        return Ok(None);
    };
    // A disk that does not give back what was written may show a frame that is not good, and ranges
    // are asked of a good one alone.
    if !is_good(&frame) {
        return Ok(None);
    }
    if !are_dated(conn, alloc)? {
        return Ok(None);
    }
    if !are_in_range(conn, alloc, &frame)? {
        return Ok(None);
    }
    Ok(Some(frame))
}

/// The frame and the receipts of a store whose tables have all their form, whatever its head;
/// `None` where they have not.
///
/// # Errors
///
/// Want of memory, a store that failed, or a number of a receipt that is there twice.
pub(crate) fn read_formed<S: Alter>(
    conn: &mut Connection<S>,
    alloc: Global,
) -> Result<Option<Formed>, Fault>
    requires { Rests (state S.Store conn.old) }
    ensures { LooksAt ReadsFormed (state S.Store conn.old) (state S.Store conn.new) result }
{
    if !has_form(conn)? {
        return Ok(None);
    }
    let Some(frame) = read_good_frame(conn, alloc)? else {
        return Ok(None);
    };
    let Some(receipts) = receipts(conn, alloc)? else {
        return Ok(None);
    };
    Ok(Some(Formed { frame, receipts }))
}
