//! What is wrong with a request whatever the world is.
ghost use Rattle.std.specs.Prelude.{◌≡◌};
ghost use Rattle.sheet_types.specs.Matrix.{first_row};
ghost use Rattle.world_members.specs.Reasons.{text_reasons};

use sheet_types::checks::{has_bad_text, is_too_large};
use sheet_types::command::Request;
use sheet_types::moments::is_moment;
use sheet_types::refusal::Refusal;

/// Why a request is refused for its moment, its texts or its sizes, if it is.
pub fn text_refusal(request: &Request) -> Option<Refusal>
    ensures { result ≡ first_row (text_reasons request.now) }
{
    if !is_moment(request.at.as_str()) || has_bad_text(&request.command) {
        Some(Refusal::BadText)
    } else if is_too_large(&request.command) {
        Some(Refusal::TooLarge)
    } else {
        None
    }
}
