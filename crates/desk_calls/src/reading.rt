//! What a connection asks, read from its source.
ghost use Rattle.std.specs.Prelude.{◌≡◌, ◌≢◌, ◌≤◌, ◌++◌, [], drop, None, Ok, Err, IfOk, IfSome};
ghost use Rattle.httparse.specs.Grammar.{RequestHead};
ghost use Rattle.httparse.specs.Spans.{IsRequestAt, IsRequestWithin};
ghost use Rattle.desk_calls.specs.Calls.{HeadAsks, IsCall, RestAsks};
ghost use Rattle.desk_calls.specs.declared.calls.Asked.{Asked};
ghost use Rattle.desk_calls.specs.declared.calls.CallFault.TheVariants.{Failed, Memory};

use crate::bodies::read_body;
use crate::calls::{Asked, Call, CallFault, Flaw};
use crate::heads::{Gathered, gather_head};
use crate::judging::head_asks;
use crate::source::Source;
use httparse::spans::{EMPTY_HEADER_SPAN, HeaderSpan, RequestSpans};
use std::alloc::Global;

/// What a head asks with the bytes that follow it.
fn call_of_head<R: Source>(
    alloc: Global,
    own: &[u8],
    source: &mut R,
    input: &mut Vec<u8>,
    headers: &[HeaderSpan],
    head: RequestSpans,
) -> Result<Call, CallFault>
    requires within { IsRequestWithin input.old.items headers.now head }
    requires short { head.len ≤ 16384 }
    ensures asks { IfOk result (λ call. (h : RequestHead) → IsRequestAt input.old.items headers.now head h
        → IfSome (R.remaining source.old) (λ ys. (asked : Asked) × HeadAsks own.now h asked
        × RestAsks asked (drop head.len input.old.items ++ ys) call)) }
    ensures sound { R.never_fails source.old → result ≢ Err Failed }
{
    match head_asks(alloc, own, input.as_slice(), headers, head)? {
        Asked::Now(call) => Ok(call),
        Asked::Body(size) => read_body(alloc, source, input, head.len, size),
    }
}

/// What a connection asks of a desk whose address is `own`, as `http://127.0.0.1:8080`; none where
/// there is no byte. No more is taken than the head and the body, but for the last piece of the
/// head; nothing after a check that fails.
///
/// # Errors
///
/// A source that failed, or want of memory, which comes only after a byte.
pub fn read_call<R: Source>(
    alloc: Global,
    own: &[u8],
    source: &mut R,
) -> Result<Option<Call>, CallFault>
    ensures asks { IfOk result (λ found. IfSome found (λ call. IfSome (R.remaining source.old)
        (λ xs. IsCall own.now xs call))) }
    ensures nothing { result ≡ Ok None → IfSome (R.remaining source.old) (λ xs. xs ≡ []) }
    ensures sound { R.never_fails source.old → result ≢ Err Failed }
    ensures some { result ≡ Err Memory → IfSome (R.remaining source.old) (λ xs. xs ≢ []) }
{
    let mut input = Vec::new(alloc);
    let mut headers = [EMPTY_HEADER_SPAN; 64];
    match gather_head(source, &mut input, &mut headers)? {
        Gathered::Nothing => Ok(None),
        Gathered::Bad => Ok(Some(Call::Refused(Flaw::BadRequest))),
        Gathered::Head(head) => {
            let call = call_of_head(alloc, own, source, &mut input, &headers, head)?;
            Ok(Some(call))
        }
    }
}
