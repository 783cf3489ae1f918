//! The answer of a desk, copied to two writers as it comes.
ghost use Rattle.std.specs.Prelude.{◌≡◌, List, ℕ, IfOk, true, false};
ghost use Rattle.desk_asking.specs.Answers.{AreFrames, Copies, IsAnswer, IsEnd, IsFrameOf};

use crate::heads::{FrameHead, take_frame_head, take_head};
use crate::payloads::copy_payload;
use std::alloc::{AllocError, Global};
use std::io::{Read, Write};
use thiserror::Error;

/// How an answer ends.
#[derive(Clone, Copy, Debug, PartialEq, Eq)]
pub enum Answer {
    /// The command ended with this exit status.
    Ended(u8),
    /// The desk does not carry such a command out, and did nothing.
    NotHere,
}

/// Why there is no answer.
#[derive(Clone, Copy, Debug, PartialEq, Eq, Error)]
pub enum AnswerFault {
    /// A growth was refused.
    #[error("want of memory")]
    Memory,
    /// The desk declined the request: its status is not 200.
    #[error("the desk of the folder declined to answer")]
    Declined,
    /// The answer has no end, or is none.
    #[error("the desk of the folder broke off its answer; what was asked for may be done")]
    Cut,
    /// A writer failed.
    #[error("what the desk of the folder answered could not be written")]
    Unwritten,
}

impl From<AllocError> for AnswerFault {
    ghost use Rattle.desk_asking.specs.declared.answers.AnswerFault.TheVariants.{Memory};

    ghost from_gives = { λ _ fault. fault ≡ Memory };

    fn from(_want: AllocError) -> AnswerFault {
        AnswerFault::Memory
    }
}

/// How an answer ends by the head of a frame that is for no writer, where so many frames came before it.
fn end_of(head: FrameHead, before: u64) -> Result<Answer, AnswerFault>
    ensures { IfOk result (IsEnd head.kind head.size before) }
{
    if head.kind == b'0' && head.size <= 255 {
        return Ok(Answer::Ended(head.size as u8));
    }
    if head.kind == b'3' && head.size == 0 && before == 0 {
        return Ok(Answer::NotHere);
    }
    Err(AnswerFault::Cut)
}

/// Copies the bytes of a frame to the writer that they are for, and answers whether they are for one.
fn copy_frame<R: Read, W: Write, E: Write>(
    reader: &mut R,
    output: &mut W,
    errors: &mut E,
    head: FrameHead,
) -> Result<bool, AnswerFault>
    ensures told { IfOk result (λ is_told. is_told ≡ true → Copies (IsFrameOf head.kind head.size)
        (R.remaining reader.old) (R.remaining reader.new)
        (W.contents output.old) (W.contents output.new)
        (E.contents errors.old) (E.contents errors.new)) }
    ensures untold { IfOk result (λ is_told. is_told ≡ false →
        (R.remaining reader.new ≡ R.remaining reader.old)
        × (W.contents output.new ≡ W.contents output.old)
        × (E.contents errors.new ≡ E.contents errors.old)) }
{
    if head.kind == b'1' {
        copy_payload(reader, output, head.size)?;
        return Ok(true);
    }
    if head.kind == b'2' {
        copy_payload(reader, errors, head.size)?;
        return Ok(true);
    }
    Ok(false)
}

/// Copies frames to two writers, until one says how the answer ends.
fn copy_frames<R: Read, W: Write, E: Write>(
    alloc: Global,
    reader: &mut R,
    output: &mut W,
    errors: &mut E,
) -> Result<Answer, AnswerFault>
    ensures { IfOk result (λ answer. Copies (λ bytes out err. AreFrames bytes out err answer)
        (R.remaining reader.old) (R.remaining reader.new)
        (W.contents output.old) (W.contents output.new)
        (E.contents errors.old) (E.contents errors.new)) }
{
    'frames: for before in 0..u64::MAX {
        let head = take_frame_head(alloc, &mut *reader)?;
        let is_told = copy_frame(&mut *reader, &mut *output, &mut *errors, head)?;
        if !is_told {
            return end_of(head, before);
        }
    }
    Err(AnswerFault::Cut)
}

/// Reads the answer of a desk, and writes what it has for standard output and for standard error, as it comes.
///
/// # Errors
///
/// A desk that declines; an answer that is cut or is none; a writer that fails; want of memory. What was written
/// then stands.
pub fn copy_answer<R: Read, W: Write, E: Write>(
    alloc: Global,
    reader: &mut R,
    output: &mut W,
    errors: &mut E,
) -> Result<Answer, AnswerFault>
    ensures { IfOk result (λ answer. Copies (λ bytes out err. IsAnswer bytes out err answer)
        (R.remaining reader.old) (R.remaining reader.new)
        (W.contents output.old) (W.contents output.new)
        (E.contents errors.old) (E.contents errors.new)) }
{
    take_head(alloc, &mut *reader)?;
    copy_frames(alloc, reader, output, errors)
}
