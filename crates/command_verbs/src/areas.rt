//! Words for sheets: a block of one zoom, as `5/0-3/2`, and one place, as `5/0/2`.
ghost use Rattle.std.specs.Prelude.{◌≡◌, ◌≢◌, ◌<◌, ℕ, ℤ, List, IfSome, IfNone, FitsSigned};
ghost use Rattle.std.specs.Int.{w64};
ghost use Rattle.sheet_types.specs.declared.frame.Rect.{Rect};
ghost use Rattle.command_verbs.specs.declared.areas.Place.{Place};
ghost use Rattle.command_verbs.specs.Areas.{AreEnds, FitsWords, IsArea, IsCut, IsCutInThree, IsNatural, IsPlace};
ghost use Rattle.command_verbs.specs.Areas.{Lacks, PlaceFits, slashed};

use sheet_types::frame::Rect;
use sheet_types::reading::read_number;

/// One place of a zoom, as it was typed. Whether a frame has it is not asked.
#[derive(Clone, Copy, PartialEq, Eq)]
pub struct Place {
    pub zoom: i64,
    pub column: i64,
    pub row: i64,
}

/// A text, cut at the first character of this kind.
pub(crate) fn cut(text: &str, mark: char) -> Option<(&str, &str)>
    requires { mark < 128 }
    ensures some { IfSome result (λ parts. IsCut mark text.now parts.0.now parts.1.now) }
    ensures none { IfNone result (Lacks mark text.now) }
{
    text.split_once(mark)
}

/// The number of a text in plain decimal, from 0 on.
pub(crate) fn read_natural(text: &str) -> Option<i64>
    ensures some { IfSome result (IsNatural text.now) }
    ensures none { IfNone result ((number : ℤ) → FitsSigned w64 number → ¬ IsNatural text.now number) }
{
    let number = read_number(text)?;
    if number < 0 {
        return None;
    }
    Some(number)
}

/// The first and the last of `3-5`, or of `3`, which is both.
fn read_ends(text: &str) -> Option<(i64, i64)>
    ensures some { IfSome result (λ ends. AreEnds text.now ends.0 ends.1) }
    ensures none { IfNone result ((first last : ℤ) → FitsSigned w64 first → FitsSigned w64 last
        → ¬ AreEnds text.now first last) }
{
    let Some((front, back)) = cut(text, '-') else {
        let only = read_natural(text)?;
        return Some((only, only));
    };
    let first = read_natural(front)?;
    let last = read_natural(back)?;
    Some((first, last))
}

/// Three texts with a slash between each and the next.
fn cut_in_three(text: &str) -> Option<(&str, &str, &str)>
    ensures some { IfSome result (λ parts. IsCutInThree text.now parts.0.now parts.1.now parts.2.now) }
    ensures none { IfNone result ((one two three : List ℕ) → Lacks 47 one → Lacks 47 two
        → text.now ≢ slashed one two three) }
{
    let (one, rest) = cut(text, '/')?;
    let (two, three) = cut(rest, '/')?;
    Some((one, two, three))
}

/// The place of a text `ZOOM/COLUMN/ROW`, each in plain decimal.
pub fn read_place(text: &str) -> Option<Place>
    ensures some { IfSome result (IsPlace text.now) }
    ensures none { IfNone result ((place : Place) → PlaceFits place → ¬ IsPlace text.now place) }
{
    let (zoom, column, row) = cut_in_three(text)?;
    let zoom = read_natural(zoom)?;
    let column = read_natural(column)?;
    let row = read_natural(row)?;
    Some(Place { zoom, column, row })
}

/// The rectangle of a text `ZOOM/COLUMNS/ROWS`, where columns and rows are one number, or the first
/// and the last with a hyphen between them.
pub fn read_area(text: &str) -> Option<Rect>
    ensures some { IfSome result (IsArea text.now) }
    ensures none { IfNone result ((rect : Rect) → FitsWords rect → ¬ IsArea text.now rect) }
{
    let (zoom, columns, rows) = cut_in_three(text)?;
    let zoom = read_natural(zoom)?;
    let (column, last_column) = read_ends(columns)?;
    let (row, last_row) = read_ends(rows)?;
    Some(Rect {
        zoom,
        column,
        last_column,
        row,
        last_row,
    })
}
