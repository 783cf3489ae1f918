//! How a call that looks at a folder ends: its exit status, and the lines that it prints before.
ghost use Rattle.std.specs.Prelude.{◌≡◌, IfOk, string_bytes};
ghost use Rattle.views.specs.Endings.{ending_status, error_text, note_text, output_text};

use command_folder::endings::{
    Ending as CommandEnding, error_of as usual_error, note_of as usual_note,
    output_of as usual_output, status_of as usual_status,
};
use std::alloc::{AllocError, Global};

/// The end of a call that looks at a folder.
#[derive(Clone, Copy, PartialEq, Eq)]
pub enum Ending {
    /// As the other subcommands end too.
    Usual(CommandEnding),
    /// No receipt of the request is kept.
    NoSuchRequest,
    /// No receipt names the identity.
    NoSuchIdentity,
    /// The frame has no such zoom.
    NoSuchZoom,
}

/// The exit status: 0 done, 1 refused, 3 stopped.
pub fn status_of(ending: Ending) -> u8
    ensures { result ≡ ending_status ending }
{
    match ending {
        Ending::Usual(ending) => usual_status(ending),
        Ending::NoSuchRequest | Ending::NoSuchIdentity | Ending::NoSuchZoom => 1,
    }
}

/// What goes to standard output at the end, behind what was printed before: a line, or nothing.
pub fn output_of(ending: Ending) -> &'static str
    ensures { result.now ≡ output_text ending }
{
    match ending {
        Ending::Usual(ending) => usual_output(ending),
        Ending::NoSuchRequest => "refused: no such request\n",
        Ending::NoSuchIdentity => "refused: no such identity\n",
        Ending::NoSuchZoom => "refused: zoom\n",
    }
}

/// What goes to standard error at the end: a line, or nothing.
pub fn error_of(ending: Ending) -> &'static str
    ensures { result.now ≡ error_text ending }
{
    match ending {
        Ending::Usual(ending) => usual_error(ending),
        Ending::NoSuchRequest | Ending::NoSuchIdentity | Ending::NoSuchZoom => "",
    }
}

/// What a person can be told of an ending beside its lines, without the end of a line. It is empty
/// where nothing more is known.
///
/// # Errors
///
/// Want of memory.
pub fn note_of(alloc: Global, ending: Ending) -> Result<String, AllocError>
    ensures { IfOk result (λ text. string_bytes text ≡ note_text ending) }
{
    match ending {
        Ending::Usual(ending) => usual_note(alloc, ending),
        Ending::NoSuchRequest | Ending::NoSuchIdentity | Ending::NoSuchZoom => {
            Ok(String::new(alloc))
        }
    }
}
