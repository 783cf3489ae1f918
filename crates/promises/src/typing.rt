//! That the values of a request are those of their types, which the laws over requests ask.
ghost use Rattle.std.specs.Prelude.{◌≡◌, true};
ghost use Rattle.sheet_types.specs.Lines.{HasTypes, is_number, is_rect};
ghost use Rattle.sheet_kept_laws.specs.Laws.{HaveTypes};

use sheet_ledger::fitting::fits;
use sheet_types::command::{Command, Request};
use sheet_types::frame::Rect;

fn number_fits(number: i64)
    ensures { is_number number ≡ true }
{}

fn rect_fits(rect: Rect)
    ensures { is_rect rect ≡ true }
{}

/// The values of any command are those of their types.
pub fn has_types(command: &Command)
    ensures { HasTypes command.now }
{
    match command {
        Command::Add {
            package,
            identity,
            ..
        }
        | Command::Delete { package, identity } => {
            fits(*package);
            fits(*identity);
        }
        Command::Link {
            package,
            base,
            other,
            ..
        }
        | Command::Unlink {
            package,
            base,
            other,
            ..
        } => {
            fits(*package);
            fits(*base);
            fits(*other);
        }
        Command::Split {
            package,
            child,
            rect,
            ..
        } => {
            fits(*package);
            fits(*child);
            rect_fits(*rect);
        }
        Command::Merge {
            child,
            into,
            ticket,
        } => {
            fits(*child);
            fits(*into);
            number_fits(*ticket);
        }
    }
}

/// So are those of a list of requests.
pub fn have_types(requests: &[Request])
    ensures { HaveTypes requests.now }
{
    for request in requests {
        has_types(&request.command);
    }
}
