//! What goes out for the reply to a request, whatever memory there is for its text.
ghost use Rattle.std.specs.Prelude.{◌≡◌, ◌⊎◌};
ghost use Rattle.desk_replies.specs.Responses.{IsRefusal, IsReply, fixed_response, outgoing_bytes};
ghost use Rattle.desk_replies.specs.Responses.{receipt_response};
ghost use Rattle.desk_replies.specs.declared.fixed.Fixed.TheVariants as fixed;

use crate::fixed::{Fixed, fixed_response};
use crate::responses::{conflict_response, receipt_response};
use sheet_types::receipt::Receipt;
use sheet_types::refusal::Refusal;
use std::alloc::Global;

/// What is to go out.
#[derive(Drop)]
pub enum Outgoing {
    /// Bytes that were made for this call.
    Made(Vec<u8>),
    /// A response that is the same each time.
    Fixed(Fixed),
}

impl Outgoing {
    /// The bytes.
    pub fn as_slice(&self) -> &[u8]
        ensures { result.now ≡ outgoing_bytes self.now }
    {
        match self {
            Outgoing::Made(bytes) => bytes.as_slice(),
            Outgoing::Fixed(fixed) => fixed_response(*fixed),
        }
    }
}

/// What goes out for a receipt, which stands whatever memory its text finds.
pub fn receipt_outgoing(alloc: Global, receipt: &Receipt) -> Outgoing
    ensures { (outgoing_bytes result ≡ receipt_response receipt.now)
        ⊎ (outgoing_bytes result ≡ fixed_response fixed.AskAgain) }
{
    match receipt_response(alloc, receipt) {
        Ok(bytes) => Outgoing::Made(bytes),
        Err(_) => Outgoing::Fixed(Fixed::AskAgain),
    }
}

/// What goes out for a refusal. That a store gave out is told in every case.
pub fn refusal_outgoing(alloc: Global, why: &Refusal) -> Outgoing
    ensures { IsRefusal why.now (outgoing_bytes result) }
{
    match why {
        Refusal::OutOfMemory => Outgoing::Fixed(Fixed::OutOfMemory),
        Refusal::StoreFault => Outgoing::Fixed(Fixed::StoreFault),
        _ => match conflict_response(alloc, why) {
            Ok(bytes) => Outgoing::Made(bytes),
            Err(_) => Outgoing::Fixed(Fixed::OutOfMemory),
        },
    }
}

/// What goes out for the reply to a request.
pub fn reply_outgoing(alloc: Global, reply: &Result<Receipt, Refusal>) -> Outgoing
    ensures { IsReply reply.now (outgoing_bytes result) }
{
    match reply {
        Ok(receipt) => receipt_outgoing(alloc, receipt),
        Err(why) => refusal_outgoing(alloc, why),
    }
}
