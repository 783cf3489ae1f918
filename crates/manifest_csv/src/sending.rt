//! A text out to a writer.
ghost use Rattle.std.specs.Prelude.{OnOk, OnErr};
ghost use Rattle.std.specs.Io.KnownBytes.{Appends};
ghost use Rattle.manifest_csv.specs.Sent.{WentOut};

use std::io::{ErrorKind, Write};

/// The writer failed, or took nothing. A beginning of the text went out, and not all of it.
#[derive(Clone, Copy, Debug, PartialEq, Eq)]
pub struct WriteFault;

/// Writes a text whole. A write that was interrupted is tried again; where the writer fails or
/// takes nothing, a beginning of the text went out, and not all of it.
pub fn send<W: Write>(writer: &mut W, text: &[u8]) -> Result<(), WriteFault>
    ensures ok { OnOk result (Appends (W.contents writer.old) (W.contents writer.new) text.now) }
    ensures err { OnErr result (WentOut (W.contents writer.old) (W.contents writer.new) text.now) }
{
    let mut at = 0;
    // A function has to end: a writer that was interrupted this often is told as one that failed.
    'sending: for _turn in 0..u64::MAX {
        if at >= text.len() {
            return Ok(());
        }
        match writer.write(&text[at..]) {
            Ok(0) => return Err(WriteFault),
            Ok(taken) => at += taken,
            Err(fault) => {
                if fault.kind() != ErrorKind::Interrupted {
                    return Err(WriteFault);
                }
            }
        }
    }
    // The last turn may have sent the rest.
    if at < text.len() {
        return Err(WriteFault);
    }
    Ok(())
}
