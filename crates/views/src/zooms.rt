//! Which zoom a map is asked of.
ghost use Rattle.std.specs.Prelude.{◌≡◌, ℤ, false, IfNone, IfSome, IsTrue, Option, Some, option_map};
ghost use Rattle.sheet_types.specs.Matrix.{has_level, is_good_frame};
ghost use Rattle.views.specs.Zooms.{AsksZoom, drawn_zoom};

use sheet_types::frame::Frame;
use sheet_types::reading::read_number;
use view_map::zooms::{default_zoom, has_level};

/// The zoom that a text names, in plain decimal within 64 bits; `None` where the text is no number.
fn read_zoom(text: &str) -> Option<Option<i64>>
    ensures some { IfSome result (λ asked. AsksZoom (Some text.now) asked) }
    ensures none { IfNone result ((asked : Option ℤ) → ¬ AsksZoom (Some text.now) asked) }
{
    match read_number(text) {
        Some(zoom) => Some(Some(zoom)),
        None => None,
    }
}

/// The zoom that a word asks for: none in particular where there is no word. `None` where the word is no number.
pub fn asked_zoom(word: Option<&str>) -> Option<Option<i64>>
    ensures some { IfSome result (λ asked. AsksZoom (option_map (λ text. text.now) word.entry) asked) }
    ensures none { IfNone result ((asked : Option ℤ) → ¬ AsksZoom (option_map (λ text. text.now) word.entry)
        asked) }
{
    match word {
        Some(text) => read_zoom(text),
        None => Some(None),
    }
}

/// The zoom that is drawn where this one is asked for, or none in particular; `None` where the frame does not have it.
pub(crate) fn zoom_of(frame: &Frame, asked: Option<i64>) -> Option<i64>
    requires { IsTrue (is_good_frame frame.now) }
    ensures some { IfSome result (λ zoom. zoom ≡ drawn_zoom frame.now asked) }
    ensures level { IfSome result (λ zoom. IsTrue (has_level frame.now zoom)) }
    ensures none { IfNone result (has_level frame.now (drawn_zoom frame.now asked) ≡ false) }
{
    match asked {
        Some(zoom) => {
            if has_level(frame, zoom) {
                Some(zoom)
            } else {
                None
            }
        }
        None => Some(default_zoom(frame)),
    }
}
