//! The body of a request, read from a reader.
ghost use Rattle.std.specs.Prelude.{◌≡◌, ◌≤◌, length, take, IfErr, IfOk, IfSome};
ghost use Rattle.command_folder.specs.Bodies.{IsUnread};

use crate::endings::{Ending, NO_MEMORY};
use std::alloc::Global;
use std::io::{ErrorKind, Read};

/// The most bytes of a body, as of one that the desk takes over HTTP.
pub const MOST_BODY: u64 = 2_200_000;

/// The bytes of a reader, up to one more than a body may have.
///
/// # Errors
///
/// A reader that failed, or want of memory.
fn read_front<R: Read + Drop>(alloc: Global, reader: R) -> Result<Vec<u8>, Ending>
    ensures bytes { IfOk result (λ body. IfSome (R.remaining reader) (λ text. body.items ≡ take 2200001 text)) }
    ensures unread { IfErr result IsUnread }
{
    let mut body = Vec::new(alloc);
    match reader.take(MOST_BODY + 1).read_to_end(&mut body) {
        Ok(_) => Ok(body),
        Err(error) => {
            if error.kind() == ErrorKind::OutOfMemory {
                Err(NO_MEMORY)
            } else {
                Err(Ending::BadBody)
            }
        }
    }
}

/// All bytes of a reader, at most 2,200,000.
///
/// # Errors
///
/// More bytes than a body may have, and those of `read_front`.
pub fn read_body<R: Read + Drop>(alloc: Global, reader: R) -> Result<Vec<u8>, Ending>
    ensures bytes { IfOk result (λ body. IfSome (R.remaining reader) (λ text. body.items ≡ text)) }
    ensures most { IfOk result (λ body. length body.items ≤ 2200000) }
    ensures unread { IfErr result IsUnread }
{
    let body = read_front(alloc, reader)?;
    if body.len() as u64 > MOST_BODY {
        return Err(Ending::BadBody);
    }
    Ok(body)
}
