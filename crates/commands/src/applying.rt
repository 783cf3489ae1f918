//! One request as JSON, carried out in a world.
ghost use Rattle.std.specs.Prelude.{IfErr, IfOk, IfSome, MatchResult};
ghost use Rattle.request_json.specs.Requests.{IsRequestText};
ghost use Rattle.command_folder.specs.Bodies.{IsUnread};
ghost use Rattle.commands.specs.Subcommands.{Applies, IsWhyUnasked};

use command_folder::bodies::read_body;
use command_folder::endings::{Ending, NO_MEMORY};
use command_folder::replies::{tell_receipt, tell_refusal};
use request_json::requests::read_request;
use sheet_types::command::Request;
use sqlite::Alter;
use std::alloc::Global;
use std::io::{Read, Write};
use store_shelf::shelf::Shelf;
use world::world::World;

/// The request that a body is.
///
/// # Errors
///
/// A body that is no request, or want of memory.
pub fn asked_of(alloc: Global, body: &[u8]) -> Result<Request, Ending>
    ensures { MatchResult result (IsRequestText body.now) (IsWhyUnasked body.now) }
{
    match read_request(alloc, body) {
        Ok(Some(request)) => Ok(request),
        Ok(None) => Err(Ending::BadBody),
        Err(_) => Err(NO_MEMORY),
    }
}

/// The request that all bytes of a reader are.
///
/// # Errors
///
/// What `read_body` and `asked_of` answer.
fn read_asked<R: Read + Drop>(alloc: Global, reader: R) -> Result<Request, Ending>
    ensures asked { IfOk result (λ request. IfSome (R.remaining reader) (λ text. IsRequestText text request)) }
    ensures unread { IfErr result IsUnread }
{
    let body = read_body(alloc, reader)?;
    asked_of(alloc, &body)
}

/// Reads one request, carries it out in a world, and writes the reply as JSON, on a line.
pub fn apply_in<S: Alter + Drop, H: Shelf<S>, R: Read + Drop, W: Write>(
    alloc: Global,
    world: &mut World<S>,
    shelf: &mut H,
    reader: R,
    writer: &mut W,
) -> Ending
    ensures { Applies S.Store (R.remaining reader) world.old world.new
        writer.old writer.new (W.contents writer.old) (W.contents writer.new) result }
{
    let request = match read_asked(alloc, reader) {
        Ok(request) => request,
        Err(ending) => return ending,
    };
    match world.apply(alloc, &request, shelf) {
        Ok(receipt) => tell_receipt(alloc, &receipt, writer),
        Err(why) => tell_refusal(alloc, &why, writer),
    }
}
