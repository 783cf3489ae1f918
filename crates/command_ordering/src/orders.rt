//! The words of a verb over a world: its request is made, and shown or carried out.
ghost use Rattle.std.specs.Prelude.{◌≡◌};
ghost use Rattle.command_folder.specs.Printing.{with_end};
ghost use Rattle.command_ordering.specs.Orders.{Answers, IsCarriedOut, Orders, OrdersOver, PrintsDeed};
ghost use Rattle.command_ordering.specs.Orders.{PrintsLine, TellsUnasked, TellsUnsaid};
ghost use Rattle.command_folder.specs.Endings.{done};
ghost use Rattle.command_folder.specs.declared.endings.Ending.TheVariants.{NoRequest};
ghost use Rattle.command_replies.specs.Requests.{request_text};
ghost use Rattle.command_verbs.specs.Faults.{verb_line};

use crate::telling::tell_fault;
use command_folder::bodies::read_body;
use command_folder::endings::{DONE, Ending, FAILED, NO_MEMORY};
use command_folder::printing::tell_line;
use command_folder::replies::{ask_again_body, tell_refusal};
use command_replies::receipts::reply_text;
use command_replies::requests::request_text;
use command_requests::orders::{Order, OrderFault, request_for};
use command_verbs::verbs::VerbFault;
use command_words::statuses::{Failure, Outcome};
use sheet_types::command::{Command, Request};
use sheet_types::receipt::Receipt;
use sqlite::Alter;
use std::alloc::Global;
use std::io::{Read, Write};
use store_shelf::shelf::Shelf;
use world::world::World;

/// What becomes of the request that the words of a verb say.
#[derive(Clone, Copy, Debug, PartialEq, Eq)]
pub enum Purpose {
    /// It is printed as JSON, and nothing changes.
    Show,
    /// It is carried out, and what came of it is printed in plain words.
    CarryOut,
}

/// Tells why there is no request.
fn tell_unasked<W: Write>(alloc: Global, why: &OrderFault, writer: &mut W) -> Ending
    ensures { TellsUnasked writer.old writer.new (W.contents writer.old) (W.contents writer.new)
        why.now result }
{
    match why {
        OrderFault::Unsaid(VerbFault::OutOfMemory) => NO_MEMORY,
        OrderFault::Unsaid(fault) => tell_fault(alloc, fault, writer),
        OrderFault::Failed(fault) => Ending::Usual(Outcome::Stopped(Failure::from(*fault))),
    }
}

/// Writes a request as JSON, on a line.
fn show<W: Write>(alloc: Global, request: &Request, writer: &mut W) -> Ending
    ensures { PrintsLine writer.old writer.new (W.contents writer.old) (W.contents writer.new)
        (with_end (request_text request.now)) done result }
{
    match request_text(alloc, request) {
        Ok(text) => tell_line(writer, text.as_str(), DONE),
        Err(_) => NO_MEMORY,
    }
}

/// Writes what came of a command. Its receipt stands whatever memory the text finds.
fn tell_deed<W: Write>(
    alloc: Global,
    command: &Command,
    receipt: &Receipt,
    writer: &mut W,
) -> Ending
    ensures { PrintsDeed command.now receipt.now (W.contents writer.old) (W.contents writer.new) result }
{
    match reply_text(alloc, command, receipt) {
        Ok(text) => tell_line(writer, text.as_str(), DONE),
        Err(_) => tell_line(writer, ask_again_body(), NO_MEMORY),
    }
}

/// Carries a request out in a world, and writes what came of it.
fn carry_out<S: Alter + Drop, H: Shelf<S>, W: Write>(
    alloc: Global,
    world: &mut World<S>,
    shelf: &mut H,
    request: &Request,
    writer: &mut W,
) -> Ending
    ensures { IsCarriedOut S.Store request.now world.old world.new (W.contents writer.old) (W.contents writer.new)
        result }
{
    match world.apply(alloc, request, shelf) {
        Ok(receipt) => tell_deed(alloc, &request.command, &receipt, writer),
        Err(why) => tell_refusal(alloc, &why, writer),
    }
}

/// Shows a request, or carries it out in a world.
fn answer_in<S: Alter + Drop, H: Shelf<S>, W: Write>(
    alloc: Global,
    world: &mut World<S>,
    shelf: &mut H,
    request: &Request,
    purpose: Purpose,
    writer: &mut W,
) -> Ending
    ensures { Answers S.Store writer.old writer.new (W.contents writer.old) (W.contents writer.new)
        purpose request.now world.old world.new result }
{
    match purpose {
        Purpose::Show => show(alloc, request, writer),
        Purpose::CarryOut => carry_out(alloc, world, shelf, request, writer),
    }
}

/// Makes the request that the words of a verb say over a world and these bytes. Then it is shown, or carried out.
fn order_over<S: Alter + Drop, H: Shelf<S>, W: Write>(
    alloc: Global,
    world: &mut World<S>,
    shelf: &mut H,
    order: &Order<'_>,
    purpose: Purpose,
    bytes: Vec<u8>,
    writer: &mut W,
) -> Ending
    ensures { OrdersOver S.Store writer.old writer.new (W.contents writer.old) (W.contents writer.new)
        order.now purpose bytes.items world.old world.new result }
{
    match request_for(alloc, world, order, bytes) {
        Ok(request) => answer_in(alloc, world, shelf, &request, purpose, writer),
        Err(why) => tell_unasked(alloc, &why, writer),
    }
}

/// The same over all bytes of a reader.
pub fn order_in<S: Alter + Drop, H: Shelf<S>, R: Read + Drop, W: Write>(
    alloc: Global,
    world: &mut World<S>,
    shelf: &mut H,
    order: &Order<'_>,
    purpose: Purpose,
    reader: R,
    writer: &mut W,
) -> Ending
    ensures { Orders S.Store writer.old writer.new (W.contents writer.old) (W.contents writer.new)
        (R.remaining reader) order.now purpose world.old world.new result }
{
    match read_body(alloc, reader) {
        Ok(bytes) => order_over(alloc, world, shelf, order, purpose, bytes, writer),
        Err(ending) => ending,
    }
}
