//! The body of a request, gathered from a source, and what it asks.
ghost use Rattle.std.specs.Prelude.{◌≡◌, ◌≢◌, ◌≤◌, ◌<◌, ◌+◌, ◌++◌, ℕ, List, true};
ghost use Rattle.std.specs.Prelude.{false, drop, length, Ok, Err, IfOk};
ghost use Rattle.std.specs.Prelude.{OnOk, IfSome};
ghost use Rattle.std.specs.Io.KnownBytes.{Consumes, IsAtEnd};
ghost use Rattle.desk_calls.specs.Calls.{BodyAsks, RestAsks};
ghost use Rattle.desk_calls.specs.Bodies.{Grows};
ghost use Rattle.desk_calls.specs.declared.calls.Asked.TheVariants.{Body};
ghost use Rattle.desk_calls.specs.declared.calls.CallFault.TheVariants.{Failed};

use crate::calls::{Call, CallFault, Flaw};
use crate::heads::take_more;
use crate::source::Source;
use request_json::requests::read_request;
use sheet_types::error::OutOfMemory;
use std::alloc::Global;

/// Takes bytes until the input has so many, or the source ends; whether it has them.
pub fn gather_body<R: Source>(
    source: &mut R,
    input: &mut Vec<u8>,
    until: usize,
) -> Result<bool, CallFault>
    requires { until ≤ 4194304 }
    ensures taken { OnOk result (Grows (R.remaining source.old) (R.remaining source.new) input.old.items
        input.new.items) }
    ensures enough { result ≡ Ok true → until ≤ length input.new.items }
    ensures short { result ≡ Ok false → length input.new.items < until }
    ensures end { result ≡ Ok false → IsAtEnd (R.remaining source.new) }
    ensures sound { R.never_fails source.old → result ≢ Err Failed }
{
    'gathering: for turn in 0..u64::MAX {
        if input.len() >= until {
            return Ok(true);
        }
        match take_more(source, input, until - input.len())? {
            None => {}
            Some(0) => return Ok(false),
            Some(_) => {}
        }
    }
    Err(CallFault::Failed)
}

/// What a body asks.
fn body_call(alloc: Global, body: &[u8]) -> Result<Call, OutOfMemory>
    ensures { IfOk result (λ call. BodyAsks body.now call) }
{
    match read_request(alloc, body)? {
        Some(request) => Ok(Call::Apply(request)),
        None => Ok(Call::Refused(Flaw::BadRequest)),
    }
}

/// What a request asks whose head ends where its body of this size starts.
pub fn read_body<R: Source>(
    alloc: Global,
    source: &mut R,
    input: &mut Vec<u8>,
    start: usize,
    size: usize,
) -> Result<Call, CallFault>
    requires head { start ≤ length input.old.items }
    requires short { start ≤ 16384 }
    requires small { size ≤ 2200000 }
    ensures asks { IfOk result (λ call. IfSome (R.remaining source.old)
        (λ ys. RestAsks (Body size) (drop start input.old.items ++ ys) call)) }
    ensures sound { R.never_fails source.old → result ≢ Err Failed }
{
    if !gather_body(source, input, start + size)? {
        return Ok(Call::Refused(Flaw::BadRequest));
    }
    let call = body_call(alloc, &input[start..start + size])?;
    Ok(call)
}
