//! The bytes of a frame, copied piece by piece.
ghost use Rattle.std.specs.Prelude.{length, OnOk};
ghost use Rattle.std.specs.Io.KnownBytes.{Appends};
ghost use Rattle.desk_asking.specs.Answers.{Moves};

use crate::answers::AnswerFault;
use crate::reading::fill_piece;
use std::io::{Read, Write};

/// The most bytes of a piece.
const PIECE: u64 = 4096;

/// Writes a piece.
fn put_piece<W: Write>(writer: &mut W, piece: &[u8]) -> Result<(), AnswerFault>
    ensures { OnOk result (Appends (W.contents writer.old) (W.contents writer.new) piece.now) }
{
    match writer.write_all(piece) {
        Ok(()) => Ok(()),
        Err(_) => Err(AnswerFault::Unwritten),
    }
}

/// Copies as many bytes as a piece has room for.
fn copy_piece<R: Read, W: Write>(
    reader: &mut R,
    writer: &mut W,
    piece: &mut [u8],
) -> Result<(), AnswerFault>
    ensures { OnOk result (Moves (length piece.old)
        (R.remaining reader.old) (R.remaining reader.new)
        (W.contents writer.old) (W.contents writer.new)) }
{
    fill_piece(&mut *reader, &mut *piece)?;
    put_piece(&mut *writer, &*piece)?;
    Ok(())
}

/// Copies so many bytes from a reader to a writer.
pub(crate) fn copy_payload<R: Read, W: Write>(
    reader: &mut R,
    writer: &mut W,
    size: u64,
) -> Result<(), AnswerFault>
    ensures { OnOk result (Moves size (R.remaining reader.old) (R.remaining reader.new)
        (W.contents writer.old) (W.contents writer.new)) }
{
    let mut piece = [0u8; 4096];
    let mut left = size;
    while left > 0 {
        let count = left.min(PIECE);
        copy_piece(&mut *reader, &mut *writer, &mut piece[..count as usize])?;
        left -= count;
    }
    Ok(())
}
