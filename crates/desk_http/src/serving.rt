//! One connection served.
ghost use Rattle.std.specs.Prelude.{◌≡◌, ◌≢◌, Err};
ghost use Rattle.desk_http.specs.Served.{Serving, WritesNothing};
ghost use Rattle.desk_http.specs.declared.serving.ServeFault.TheVariants.{Read};

use crate::answering::answer;
use desk_calls::calls::CallFault;
use desk_calls::reading::read_call;
use desk_calls::source::Source;
use desk_replies::fixed::{Fixed, fixed_response};
use manifest_csv::sending::{WriteFault, send};
use sqlite::Alter;
use std::alloc::Global;
use std::io::Write;
use store_shelf::shelf::Shelf;
use thiserror::Error;
use world::world::World;

/// What became of a connection.
#[derive(Clone, Copy, Debug, PartialEq, Eq)]
pub enum Served {
    /// No byte came, and none was written.
    Nothing,
    /// A response was written.
    Answered,
}

/// Why a connection was not served.
#[derive(Clone, Copy, Debug, PartialEq, Eq, Error)]
pub enum ServeFault {
    /// The reader failed. Nothing was written or changed.
    #[error("the reader failed")]
    Read,
    /// The writer failed. A beginning of the response went out, and a request that it answers stands.
    #[error("the writer failed")]
    Write,
}

impl From<WriteFault> for ServeFault {
    ghost use Rattle.desk_http.specs.declared.serving.ServeFault.TheVariants.{Write};

    ghost from_gives = { λ fault why. why ≡ Write };

    fn from(_fault: WriteFault) -> ServeFault {
        ServeFault::Write
    }
}

/// Reads one request and writes one response. `own` is the desk's address, as `http://127.0.0.1:8080`: a page of
/// another address is refused. It stops reading once head and body are there or a check has failed.
///
/// # Errors
///
/// A reader or a writer that failed. Over a reader that never fails it is the writer.
pub fn serve_one<S: Alter + Drop, H: Shelf<S>, R: Source, W: Write>(
    alloc: Global,
    world: &mut World<S>,
    shelf: &mut H,
    own: &[u8],
    reader: &mut R,
    writer: &mut W,
) -> Result<Served, ServeFault>
    ensures served { Serving S.Store own.now (R.remaining reader.old) world.old world.new
        (H.failures_of shelf.old) (H.failures_of shelf.new) (W.contents writer.old)
        (W.contents writer.new) result }
    ensures nothing { WritesNothing writer.old writer.new result }
    ensures sound { R.never_fails reader.old → result ≢ Err Read }
{
    match read_call(alloc, own, reader) {
        Ok(None) => Ok(Served::Nothing),
        Ok(Some(asked)) => {
            let out = answer(alloc, world, shelf, &asked);
            send(writer, out.as_slice())?;
            Ok(Served::Answered)
        }
        Err(CallFault::Failed) => Err(ServeFault::Read),
        Err(CallFault::Memory) => {
            send(writer, fixed_response(Fixed::OutOfMemory))?;
            Ok(Served::Answered)
        }
    }
}
