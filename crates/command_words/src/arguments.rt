//! What the words of a command line ask for.
ghost use Rattle.std.specs.Prelude.{◌≡◌, ℕ, IfSome, IfNone, IfOk, IfErr, MatchResult};
ghost use Rattle.sheet_types.specs.declared.frame.Frame.{Frame};
ghost use Rattle.command_words.specs.Arguments.{IsFrame, IsFirstUnread, Asks, IsPort, IsCount, AsksDesk};
ghost use Rattle.command_words.specs.Arguments.{IsFirstUnserved};

use crate::statuses::What;
use matrix_rules::check::FrameRules;
use sheet_types::frame::Frame;
use sheet_types::moments::is_moment;
use sheet_types::reading;
use uuid::Uuid;

/// The words for a new archive, as they were typed: its UUID, the moment at which it is made, and its frame.
#[derive(Clone, Copy)]
pub struct Words<'t> {
    pub archive: &'t str,
    pub at: &'t str,
    pub frame: &'t str,
}

/// A new archive that can be made: its moment is one, and its frame is good.
#[derive(Clone, Copy)]
pub struct Rehearsal<'t> {
    pub archive: Uuid,
    pub at: &'t str,
    pub frame: Frame,
}

/// The words for a desk, as they were typed: its port, and how many connections it serves.
#[derive(Clone, Copy)]
pub struct DeskWords<'t> {
    pub port: &'t str,
    pub count: &'t str,
}

/// A desk that can be opened: its port, from 1 on, and how many connections it serves, from 1 to 1,000,000.
#[derive(Clone, Copy, Debug, PartialEq, Eq)]
pub struct Desk {
    pub port: u16,
    pub count: u32,
}

/// The good frame of a text of eleven numbers in plain decimal with single commas between them, in
/// the order of the fields of `Frame`.
pub fn read_frame(text: &str) -> Option<Frame>
    ensures some { IfSome result (λ frame. IsFrame text.now frame) }
    ensures none { IfNone result ((frame : Frame) → ¬ IsFrame text.now frame) }
{
    let frame = reading::read_frame(text)?;
    match frame.check() {
        Ok(()) => Some(frame),
        Err(_) => None,
    }
}

/// What the words ask for, or the first of them that cannot be read: the UUID, then the moment, then the frame.
pub fn read_rehearsal<'t>(words: &Words<'t>) -> Result<Rehearsal<'t>, What>
    ensures { MatchResult result (λ asked. Asks words.now.archive.now words.now.at.now words.now.frame.now
        asked.archive asked.at.now asked.frame) (λ what. IsFirstUnread words.now.archive.now words.now.at.now
        words.now.frame.now what) }
{
    let Some(archive) = reading::read_uuid(words.archive) else {
        return Err(What::BadUuid);
    };
    if !is_moment(words.at) {
        return Err(What::BadMoment);
    }
    let Some(frame) = read_frame(words.frame) else {
        return Err(What::BadFrame);
    };
    Ok(Rehearsal {
        archive,
        at: words.at,
        frame,
    })
}

/// The port of a text in plain decimal, from 1 to 65,535.
pub fn read_port(text: &str) -> Option<u16>
    ensures some { IfSome result (λ port. IsPort text.now port) }
    ensures none { IfNone result ((port : ℕ) → ¬ IsPort text.now port) }
{
    let number = reading::read_number(text)?;
    if number < 1 || number > 65_535 {
        return None;
    }
    Some(number as u16)
}

/// The count of a text in plain decimal, from 1 to 1,000,000.
pub fn read_count(text: &str) -> Option<u32>
    ensures some { IfSome result (λ count. IsCount text.now count) }
    ensures none { IfNone result ((count : ℕ) → ¬ IsCount text.now count) }
{
    let number = reading::read_number(text)?;
    if number < 1 || number > 1_000_000 {
        return None;
    }
    Some(number as u32)
}

/// The desk that two words ask for; `None` where one of them is no number, or out of its range.
pub fn read_desk(words: &DeskWords<'_>) -> Option<Desk>
    ensures some { IfSome result (λ desk. AsksDesk words.now.port.now words.now.count.now desk.port desk.count) }
    ensures none { IfNone result ((port count : ℕ) → ¬ AsksDesk words.now.port.now words.now.count.now port
        count) }
{
    let port = read_port(words.port)?;
    let count = read_count(words.count)?;
    Some(Desk { port, count })
}

/// What the words ask for, a rehearsal and then a desk, or the first of them that cannot be read:
/// the UUID, the moment, the frame, then the numbers of the desk.
pub fn read_serving<'t>(
    words: &Words<'t>,
    desk: &DeskWords<'_>,
) -> Result<(Rehearsal<'t>, Desk), What>
    ensures ok { IfOk result (λ read. Asks words.now.archive.now words.now.at.now words.now.frame.now read.0.archive
        read.0.at.now read.0.frame) }
    ensures desk { IfOk result (λ read. AsksDesk desk.now.port.now desk.now.count.now read.1.port read.1.count) }
    ensures err { IfErr result (λ what. IsFirstUnserved words.now.archive.now words.now.at.now words.now.frame.now
        desk.now.port.now desk.now.count.now what) }
{
    let rehearsal = match read_rehearsal(words) {
        Ok(rehearsal) => rehearsal,
        Err(what) => return Err(what),
    };
    match read_desk(desk) {
        Some(desk) => Ok((rehearsal, desk)),
        None => Err(What::BadNumber),
    }
}
