//! What is told of a desk while it serves: a line for its port, and one for each connection.
ghost use Rattle.std.specs.Prelude.{◌≡◌, IfOk, string_bytes};
ghost use Rattle.command_words.specs.DeskLines.{exchange_line, listening_line, shown};

use std::alloc::{AllocError, Global};

/// The line that names the port at which a desk listens.
///
/// # Errors
///
/// Want of memory.
pub fn listening_line(alloc: Global, port: u16) -> Result<String, AllocError>
    ensures { IfOk result (λ line. string_bytes line ≡ listening_line port) }
{
    format!(in alloc; "listening on 127.0.0.1:{port}\n")
}

/// A byte as it is shown: itself where it is a visible character of ASCII or a space, else `?`.
fn visible_byte(byte: u8) -> u8
    ensures { result ≡ shown byte }
{
    if (byte < 32) | (byte > 126) {
        b'?'
    } else {
        byte
    }
}

/// The line of one connection: the moment, the first line of its request, and the status of the
/// response. A byte that could not be seen is shown as `?`, so that no request makes a line of its
/// own.
///
/// # Errors
///
/// Want of memory.
pub fn exchange_line(
    alloc: Global,
    moment: &str,
    request: &[u8],
    status: &[u8],
) -> Result<Vec<u8>, AllocError>
    ensures { IfOk result (λ line. line.items ≡ exchange_line moment.now request.now status.now) }
{
    let shown_request: Vec<u8> = request
        .iter()
        .map(|byte| visible_byte(*byte))
        .collect(alloc)?;
    let mut line = Vec::new(alloc);
    line.extend_from_slice(moment.as_bytes())?;
    line.extend_from_slice(b" ")?;
    line.extend_from_slice(shown_request.as_slice())?;
    line.extend_from_slice(b" ")?;
    line.extend_from_slice(status)?;
    line.extend_from_slice(b"\n")?;
    Ok(line)
}
