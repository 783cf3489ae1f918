//! What is made of a call over a world.
ghost use Rattle.std.specs.Prelude.{◌≡◌, IfOk, Some};
ghost use Rattle.manifest_csv.specs.Manifests.{manifest_of};
ghost use Rattle.desk_calls.specs.declared.calls.Call.TheVariants as call;
ghost use Rattle.desk_replies.specs.Responses.{manifest_response, outgoing_bytes};
ghost use Rattle.desk_http.specs.Served.{Answers, IsFaultText, Tells, fixed_of};

use crate::packages::packages_call;
use desk_calls::calls::{Call, Flaw};
use desk_replies::fixed::Fixed;
use desk_replies::replies::{Outgoing, receipt_outgoing, reply_outgoing};
use desk_replies::responses::manifest_response;
use manifest_csv::manifests::manifest_text;
use package_tables::fault::Fault;
use sheet_types::command::{Item, Relation, Request};
use sheet_types::error::OutOfMemory;
use sqlite::Alter;
use std::alloc::Global;
use store_shelf::shelf::Shelf;
use uuid::Uuid;
use world::world::World;

/// The response to a check that failed.
fn fixed_of(flaw: Flaw) -> Fixed
    ensures { result ≡ fixed_of flaw }
{
    match flaw {
        Flaw::BadOrigin => Fixed::BadOrigin,
        Flaw::BadRequest => Fixed::BadRequest,
        Flaw::NoSuchPath => Fixed::NoSuchPath,
        Flaw::BadMethod => Fixed::BadMethod,
        Flaw::NoLength => Fixed::NoLength,
        Flaw::TooLarge => Fixed::TooLarge,
    }
}

/// What goes out in place of an answer that a world could not give.
fn fault_outgoing(fault: Fault) -> Outgoing
    ensures { IsFaultText (outgoing_bytes result) }
{
    match fault {
        Fault::OutOfMemory => Outgoing::Fixed(Fixed::OutOfMemory),
        Fault::StoreFault => Outgoing::Fixed(Fixed::StoreFault),
    }
}

/// Hands a request to the world.
fn apply_call<S: Alter + Drop, H: Shelf<S>>(
    alloc: Global,
    world: &mut World<S>,
    shelf: &mut H,
    request: &Request,
) -> Outgoing
    ensures { Answers S.Store (call.Apply request.now) world.old (outgoing_bytes result) world.new
        (H.failures_of shelf.old) (H.failures_of shelf.new) }
{
    let reply = world.apply(alloc, request, shelf);
    reply_outgoing(alloc, &reply)
}

/// The response with a manifest.
fn manifest_made(alloc: Global, items: &[Item], links: &[Relation]) -> Result<Vec<u8>, OutOfMemory>
    ensures { IfOk result (λ bytes. bytes.items ≡ manifest_response (manifest_of items.now links.now)) }
{
    let text = manifest_text(alloc, items, links)?;
    manifest_response(alloc, text.as_slice())
}

/// What goes out for the manifest of a package.
fn manifest_call<S: Alter + Drop>(alloc: Global, world: &mut World<S>, package: Uuid) -> Outgoing
    ensures { Tells S.Store (call.Manifest (Some «package»)) world.old (outgoing_bytes result) world.new }
{
    match world.holdings(alloc, package) {
        Ok(Some((items, links))) => match manifest_made(alloc, items.as_slice(), links.as_slice()) {
            Ok(bytes) => Outgoing::Made(bytes),
            Err(_) => Outgoing::Fixed(Fixed::OutOfMemory),
        },
        Ok(None) => Outgoing::Fixed(Fixed::NoSuchPackage),
        Err(fault) => fault_outgoing(fault),
    }
}

/// What goes out for the kept receipt of a request.
fn receipt_call<S: Alter + Drop>(alloc: Global, world: &mut World<S>, id: Uuid) -> Outgoing
    ensures { Tells S.Store (call.Receipt (Some id)) world.old (outgoing_bytes result) world.new }
{
    match world.receipt(alloc, id) {
        Ok(Some(receipt)) => receipt_outgoing(alloc, &receipt),
        Ok(None) => Outgoing::Fixed(Fixed::NoSuchReceipt),
        Err(fault) => fault_outgoing(fault),
    }
}

/// What is made of a call.
pub fn answer<S: Alter + Drop, H: Shelf<S>>(
    alloc: Global,
    world: &mut World<S>,
    shelf: &mut H,
    asked: &Call,
) -> Outgoing
    ensures { Answers S.Store asked.now world.old (outgoing_bytes result) world.new
        (H.failures_of shelf.old) (H.failures_of shelf.new) }
{
    match asked {
        Call::Refused(flaw) => Outgoing::Fixed(fixed_of(*flaw)),
        Call::Apply(request) => apply_call(alloc, world, shelf, request),
        Call::Packages => packages_call(alloc, world),
        Call::Manifest(Some(package)) => manifest_call(alloc, world, *package),
        Call::Manifest(None) => Outgoing::Fixed(Fixed::NoSuchPackage),
        Call::Receipt(Some(id)) => receipt_call(alloc, world, *id),
        Call::Receipt(None) => Outgoing::Fixed(Fixed::NoSuchReceipt),
    }
}
