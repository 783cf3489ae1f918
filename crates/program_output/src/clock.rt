//! The moment of the clock, and new UUIDs. Nothing below the program asks for either.
ghost use Rattle.std.specs.Prelude.{⊤};

use command_plans::requests::Identities;
use jiff_core::civil::Date;
use std::alloc::{AllocError, Global};
use std::io;
use std::time::{SystemTime, UNIX_EPOCH};
use uuid::Uuid;

const SECONDS_OF_A_DAY: u64 = 86_400;

/// The moment of so many seconds since 1970, and milliseconds; `None` past the year 9999.
fn moment_of(alloc: Global, seconds: u64, millis: u32) -> Result<Option<String>, AllocError> {
    let Ok(
        Date {
            year,
            month,
            day,
            ..
        },
    ) = Date::from_unix_epoch_day((seconds / SECONDS_OF_A_DAY) as i64)
    else {
        return Ok(None);
    };
    let time = seconds % SECONDS_OF_A_DAY;
    let hour = time / 3600;
    let minute = time / 60 % 60;
    let second = time % 60;
    let text = format!(in alloc;
        "{year:04}-{month:02}-{day:02}T{hour:02}:{minute:02}:{second:02}.{millis:03}Z"
    )?;
    Ok(Some(text))
}

/// What is told where the clock is set before 1970 or past 9999.
fn wrong_clock() -> io::Error {
    io::Error::other("the clock is wrong")
}

/// The moment of the clock, in UTC, as `2026-11-30T05:43:46.123Z`.
///
/// # Errors
///
/// Those of the clock, a clock that is set before 1970 or past 9999, or want of memory.
pub fn moment_now(rt: &HostRuntime) -> io::Result<String> {
    let now = SystemTime::now(rt)?;
    let Ok(since) = now.duration_since(UNIX_EPOCH) else {
        return Err(wrong_clock());
    };
    match moment_of(rt.alloc(), since.as_secs(), since.subsec_millis())? {
        Some(text) => Ok(text),
        None => Err(wrong_clock()),
    }
}

/// A UUID that is new.
///
/// # Errors
///
/// Those of the system's random bytes.
pub fn new_uuid(rt: &HostRuntime) -> io::Result<Uuid> {
    Uuid::try_new_v4(rt)
}

/// A word that nobody can guess, of 32 hexadecimal digits.
///
/// # Errors
///
/// Those of the system's random bytes, or want of memory.
pub fn new_key(rt: &HostRuntime) -> io::Result<String> {
    let uuid = new_uuid(rt)?;
    let key = uuid.simple();
    Ok(format!(in rt.alloc(); "{key}")?)
}

/// Identities that are new, each of the system's random bytes.
#[derive(Drop)]
pub struct NewIdentities<'r> {
    /// The runtime, by which the system is asked.
    pub rt: &'r HostRuntime,
}

impl<'r> Identities for NewIdentities<'r> {
    // That the system gives none twice is in no clause. That each request has the UUID of a call of
    // its own is proved over all sources.
    ghost gives = { λ id old new. ⊤ };

    fn next_identity(&mut self) -> Option<Uuid> {
        match new_uuid(self.rt) {
            Ok(id) => Some(id),
            Err(_) => None,
        }
    }
}
