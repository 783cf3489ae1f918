//! The head of a desk's answer, and the heads of its frames.
ghost use Rattle.std.specs.Prelude.{◌≡◌, ◌≢◌, ◌∷◌, [], List, ℕ, IfOk, IfSome, decimal, true, false};
ghost use Rattle.std.specs.Io.KnownBytes.{Consumes};
ghost use Rattle.desk_asking.specs.Answers.{AreFields, IsHead, frame_head};

use crate::answers::AnswerFault;
use crate::reading::{read_size, take_line};
use std::alloc::Global;
use std::io::Read;

/// The most fields of a head.
const MOST_FIELDS: u32 = 64;

/// What stands before the bytes of a frame.
#[derive(Clone, Copy)]
pub(crate) struct FrameHead {
    pub(crate) kind: u8,
    pub(crate) size: u64,
}

/// Whether a line of a head is empty.
fn is_blank(line: &[u8]) -> bool
    ensures yes { result ≡ true → line.now ≡ 13 ∷ [] }
    ensures no { result ≡ false → line.now ≢ 13 ∷ [] }
{
    line == b"\r".as_slice()
}

/// Takes the fields of a head, and the empty line behind them.
fn take_fields<R: Read>(alloc: Global, reader: &mut R) -> Result<(), AnswerFault>
    ensures { IfOk result (λ _. (bytes : List ℕ) × AreFields bytes
        × Consumes (R.remaining reader.old) (R.remaining reader.new) bytes) }
{
    'fields: for _field in 0..MOST_FIELDS {
        let line = take_line(alloc, &mut *reader)?;
        if is_blank(line.as_slice()) {
            return Ok(());
        }
    }
    Err(AnswerFault::Cut)
}

/// Takes the head of an answer.
pub(crate) fn take_head<R: Read>(alloc: Global, reader: &mut R) -> Result<(), AnswerFault>
    ensures { IfOk result (λ _. (head : List ℕ) × IsHead head
        × Consumes (R.remaining reader.old) (R.remaining reader.new) head) }
{
    let status = take_line(alloc, &mut *reader)?;
    if !status.as_slice().starts_with(b"HTTP/1.1 200 ".as_slice()) {
        return Err(AnswerFault::Declined);
    }
    take_fields(alloc, &mut *reader)?;
    Ok(())
}

/// What stands behind a space at the front.
fn behind_space(text: &[u8]) -> Option<&[u8]>
    ensures { IfSome result (λ rest. text.now ≡ 32 ∷ rest.now) }
{
    match text.split_first() {
        Some((first, rest)) => if *first == b' ' { Some(rest) } else { None },
        None => None,
    }
}

/// What a line says of the frame behind it; `None` where it is none that stands before a frame.
fn read_frame_head(line: &[u8]) -> Option<FrameHead>
    ensures { IfSome result (λ head. line.now ≡ head.kind ∷ (32 ∷ decimal head.size)) }
{
    let Some((kind, rest)) = line.split_first() else {
        return None;
    };
    let Some(digits) = behind_space(rest) else {
        return None;
    };
    match read_size(digits) {
        Some(size) => Some(FrameHead { kind: *kind, size }),
        None => None,
    }
}

/// Takes the head of a frame.
pub(crate) fn take_frame_head<R: Read>(
    alloc: Global,
    reader: &mut R,
) -> Result<FrameHead, AnswerFault>
    ensures { IfOk result (λ head. Consumes (R.remaining reader.old) (R.remaining reader.new)
        (frame_head head.kind head.size)) }
{
    let line = take_line(alloc, reader)?;
    match read_frame_head(line.as_slice()) {
        Some(head) => Ok(head),
        None => Err(AnswerFault::Cut),
    }
}
