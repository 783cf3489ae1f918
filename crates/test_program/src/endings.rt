// Endings of the subcommands as texts: the status, what goes to standard output and to standard error, and what is
// known beside them.
use command_folder::endings::{self as of_commands, Ending};
use command_words::statuses::{self, Outcome};
use std::alloc::{AllocError, Global};
use views::endings::{self as of_views, Ending as ViewEnding};

// How a rehearsal, a command or a view ended.
#[derive(Clone, Copy)]
pub(crate) enum End {
    Of(Outcome),
    Command(Ending),
    View(ViewEnding),
}

fn status_of(end: &End) -> u8 {
    match end {
        End::Of(end) => statuses::status_of(*end),
        End::Command(end) => of_commands::status_of(*end),
        End::View(end) => of_views::status_of(*end),
    }
}

fn output_of(end: &End) -> &'static str {
    match end {
        End::Of(end) => statuses::output_of(*end),
        End::Command(end) => of_commands::output_of(*end),
        End::View(end) => of_views::output_of(*end),
    }
}

fn error_of(end: &End) -> &'static str {
    match end {
        End::Of(end) => statuses::error_of(*end),
        End::Command(end) => of_commands::error_of(*end),
        End::View(end) => of_views::error_of(*end),
    }
}

fn note_of(alloc: Global, end: &End) -> Result<String, AllocError> {
    match end {
        End::Of(_) => Ok(String::new(alloc)),
        End::Command(end) => of_commands::note_of(alloc, *end),
        End::View(end) => of_views::note_of(alloc, *end),
    }
}

// The status, the output, the error and what is known beside them, with a stroke after each line.
pub(crate) fn end_text(alloc: Global, end: &End) -> Result<String, AllocError> {
    let (status, output, error) = (status_of(end), output_of(end), error_of(end));
    let note = note_of(alloc, end)?;
    let note = note.as_str();
    format!(in alloc; "{status} {output}|{error}|{note}")
}
