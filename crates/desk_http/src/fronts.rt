//! The first bytes of what a connection takes and gives, for those who are told of it.

use arrayvec::ArrayVec;

/// How many bytes are kept.
const MOST_FRONT: usize = 256;

/// The first bytes of what went through, up to a limit.
#[derive(Drop)]
pub(crate) struct Front {
    bytes: ArrayVec<u8, MOST_FRONT>,
}

impl Front {
    /// Nothing yet.
    pub(crate) fn new() -> Front {
        Front {
            bytes: ArrayVec::new(),
        }
    }

    /// Keeps what comes next, as far as there is room.
    pub(crate) fn keep(&mut self, more: &[u8]) {
        for byte in more {
            if self.bytes.try_push(*byte).is_err() {
                return;
            }
        }
    }

    /// What was kept.
    pub(crate) fn bytes(&self) -> &[u8] {
        self.bytes.as_slice()
    }
}

/// The first line of these bytes, without its end.
pub(crate) fn first_line(bytes: &[u8]) -> &[u8] {
    match bytes
        .iter()
        .position(|byte| (*byte == b'\r') | (*byte == b'\n'))
    {
        Some(end) => &bytes[..end],
        None => bytes,
    }
}

/// The status of a response that begins so, as `200`; `-` where none went out.
pub(crate) fn status_in(bytes: &[u8]) -> &[u8] {
    if bytes.len() < 12 {
        b"-"
    } else {
        &bytes[9..12]
    }
}
