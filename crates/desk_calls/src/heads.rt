//! The head of a request, gathered from a source.
ghost use Rattle.std.specs.Prelude.{◌≡◌, ◌≢◌, ◌≤◌, ◌<◌, ◌+◌, ◌++◌, ℕ, List, []};
ghost use Rattle.std.specs.Prelude.{length, Err, IfOk, OnOk, OnErr};
ghost use Rattle.std.specs.Prelude.{IfSome, IsSome, MatchOption};
ghost use Rattle.std.specs.Io.KnownBytes.{Consumes, IsAtEnd, Keeps};
ghost use Rattle.desk_calls.specs.Heads.{Gathers, IsJudged, LiesWithin};
ghost use Rattle.desk_calls.specs.declared.calls.CallFault.TheVariants.{Failed, Memory};

use crate::calls::CallFault;
use crate::source::{Source, SourceFault};
use httparse::Status;
use httparse::spans::{HeaderSpan, RequestSpans, parse_request};

/// The most bytes of a head, with its empty line.
pub const MOST_HEAD: usize = 16_384;

/// What came of a source's first bytes.
#[derive(Clone, Copy, Debug, PartialEq, Eq)]
pub enum Gathered {
    /// There is no byte.
    Nothing,
    /// They begin with no head that the desk takes.
    Bad,
    /// They begin with this head.
    Head(RequestSpans),
}

/// What the input says so far.
#[derive(Clone, Copy, Debug, PartialEq, Eq)]
enum Judged {
    Whole(RequestSpans),
    Part,
    Never,
}

fn judge(input: &[u8], headers: &mut [HeaderSpan]) -> Judged
    requires { length headers.old ≡ 64 }
    ensures { IsJudged input.now headers.new result }
{
    match parse_request(input, headers) {
        Ok(Status::Complete(head)) => Judged::Whole(head),
        Ok(Status::Partial) => Judged::Part,
        Err(_) => Judged::Never,
    }
}

/// One piece more of the input, no longer than the room; none where the source was interrupted.
pub fn take_more<R: Source>(
    source: &mut R,
    input: &mut Vec<u8>,
    room: usize,
) -> Result<Option<usize>, CallFault>
    requires { 0 < room }
    ensures took { IfOk result (λ o. MatchOption o ((input.new.items ≡ input.old.items)
        × Keeps (R.remaining source.old) (R.remaining source.new))
        (λ n. (bs : List ℕ) × (input.new.items ≡ input.old.items ++ bs)
        × Consumes (R.remaining source.old) (R.remaining source.new) bs
        × (n ≡ length bs) × (length input.new.items ≤ length input.old.items + room)
        × (n ≡ 0 → IsAtEnd (R.remaining source.new)))) }
    ensures sound { R.never_fails source.old → result ≢ Err Failed }
    ensures goes_on { R.never_fails source.old → IfOk result IsSome }
    ensures keeps { R.never_fails source.old → R.never_fails source.new }
    ensures some { result ≡ Err Memory → IfSome (R.remaining source.old) (λ xs. xs ≢ []) }
{
    let mut chunk = [0u8; 1024];
    let room = room.min(1024);
    match source.take(&mut chunk[..room]) {
        Ok(0) => Ok(Some(0)),
        Ok(n) => match input.extend_from_slice(&chunk[..n]) {
            Ok(()) => Ok(Some(n)),
            Err(_) => Err(CallFault::Memory),
        },
        Err(SourceFault::Interrupted) => Ok(None),
        Err(SourceFault::Failed) => Err(CallFault::Failed),
    }
}

/// Takes bytes until a head is there, or can't come any more. No byte is taken that a check does
/// not need, but for those of the last piece.
pub fn gather_head<R: Source>(
    source: &mut R,
    input: &mut Vec<u8>,
    headers: &mut [HeaderSpan],
) -> Result<Gathered, CallFault>
    requires fresh { input.old.items ≡ [] }
    requires fields { length headers.old ≡ 64 }
    ensures taken { OnOk result (Consumes (R.remaining source.old) (R.remaining source.new) input.new.items) }
    ensures head { IfOk result (λ g. IfSome (R.remaining source.old)
        (λ xs. Gathers xs input.new.items headers.new g)) }
    ensures within { IfOk result (LiesWithin input.new.items headers.new) }
    ensures short { OnOk result (length input.new.items ≤ 16384) }
    ensures sound { R.never_fails source.old → result ≢ Err Failed }
    ensures keeps { R.never_fails source.old → R.never_fails source.new }
    ensures some { result ≡ Err Memory → IfSome (R.remaining source.old) (λ xs. xs ≢ []) }
{
    'gathering: for turn in 0..u64::MAX {
        if input.len() >= MOST_HEAD {
            return Ok(Gathered::Bad);
        }
        match take_more(source, input, MOST_HEAD - input.len())? {
            None => {}
            Some(0) => {
                return Ok(if input.is_empty() {
                    Gathered::Nothing
                } else {
                    Gathered::Bad
                });
            }
            Some(_) => match judge(input.as_slice(), headers) {
                Judged::Whole(head) => return Ok(Gathered::Head(head)),
                Judged::Part => {}
                Judged::Never => return Ok(Gathered::Bad),
            },
        }
    }
    Err(CallFault::Failed)
}
