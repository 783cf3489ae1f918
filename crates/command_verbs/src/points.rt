//! Words for points: numbers in units of the reference system, with at most three decimals.
ghost use Rattle.std.specs.Prelude.{◌≡◌, ℤ, pos, ◌≤ℤ◌, ◌*ℤ◌, IfSome, IfNone};
ghost use Rattle.sheet_types.specs.declared.frame.Ground.{Ground};
ghost use Rattle.command_verbs.specs.declared.points.Point.{Point};
ghost use Rattle.command_verbs.specs.Points.{IsBox, IsPoint, IsSize, IsUnits, IsWhole, digit_of, fraction, is_digit};
ghost use Rattle.command_verbs.specs.Points.{is_small};

use crate::areas::{cut, read_natural};
use sheet_types::frame::Ground;

/// A point in thousandths of a unit.
#[derive(Clone, Copy, PartialEq, Eq)]
pub struct Point {
    pub x: i64,
    pub y: i64,
}

/// Whether a byte is a decimal digit.
fn is_digit(byte: u8) -> bool
    ensures { result ≡ is_digit byte }
{
    48 <= byte && byte <= 57
}

/// The value of a digit.
fn digit_of(byte: u8) -> i64
    ensures value { result ≡ digit_of byte }
    ensures range { (pos 0 ≤ℤ result) × (result ≤ℤ pos 255) }
{
    i64::from(byte.saturating_sub(48))
}

/// One to three digits behind the point, as thousandths.
fn read_fraction(digits: &[u8]) -> Option<i64>
    ensures value { result ≡ fraction digits.now }
    ensures range { IfSome result is_small }
{
    match digits {
        [a] => if is_digit(*a) {
            Some(digit_of(*a) * 100)
        } else {
            None
        }
        [a, b] => if is_digit(*a) & is_digit(*b) {
            Some(digit_of(*a) * 100 + digit_of(*b) * 10)
        } else {
            None
        }
        [a, b, c] => if is_digit(*a) & is_digit(*b) & is_digit(*c) {
            Some(digit_of(*a) * 100 + digit_of(*b) * 10 + digit_of(*c))
        } else {
            None
        }
        _ => None,
    }
}

/// A whole number of units from 0 on, of at most 1,000,000,000,000, as thousandths.
fn read_whole(text: &str) -> Option<i64>
    ensures some { IfSome result (λ n. (u : ℤ) × IsWhole text.now u × (n ≡ u *ℤ pos 1000)) }
    ensures range { IfSome result (λ n. (pos 0 ≤ℤ n) × (n ≤ℤ pos 1000000000000000)) }
    ensures none { IfNone result ((u : ℤ) → ¬ IsWhole text.now u) }
{
    let units = read_natural(text)?;
    if units > 1_000_000_000_000 {
        return None;
    }
    Some(units * 1000)
}

/// The same, and perhaps a point and one to three digits behind it.
fn read_size(text: &str) -> Option<i64>
    ensures some { IfSome result (IsSize text.now) }
    ensures range { IfSome result (λ n. (pos 0 ≤ℤ n) × (n ≤ℤ pos 1000000000030000)) }
    ensures none { IfNone result ((n : ℤ) → ¬ IsSize text.now n) }
{
    let Some((front, digits)) = cut(text, '.') else {
        return read_whole(text);
    };
    let whole = read_whole(front)?;
    let part = read_fraction(digits.as_bytes())?;
    Some(whole + part)
}

/// The thousandths of a number in units: plain decimal with at most three decimals, behind a minus or none.
pub fn read_units(text: &str) -> Option<i64>
    ensures some { IfSome result (IsUnits text.now) }
    ensures none { IfNone result ((n : ℤ) → ¬ IsUnits text.now n) }
{
    let Some((front, rest)) = cut(text, '-') else {
        return read_size(text);
    };
    if !front.is_empty() {
        return None;
    }
    let size = read_size(rest)?;
    Some(-size)
}

/// The point of a text `X,Y`, in units.
pub fn read_point(text: &str) -> Option<Point>
    ensures some { IfSome result (IsPoint text.now) }
    ensures none { IfNone result ((point : Point) → ¬ IsPoint text.now point) }
{
    let (across, up) = cut(text, ',')?;
    let x = read_units(across)?;
    let y = read_units(up)?;
    Some(Point { x, y })
}

/// The ground of a text `WEST,SOUTH,EAST,NORTH`, in units.
pub fn read_box(text: &str) -> Option<Ground>
    ensures some { IfSome result (IsBox text.now) }
    ensures none { IfNone result ((g : Ground) → ¬ IsBox text.now g) }
{
    let (west, rest) = cut(text, ',')?;
    let (south, rest) = cut(rest, ',')?;
    let Point { x: east, y: north } = read_point(rest)?;
    let west = read_units(west)?;
    let south = read_units(south)?;
    Some(Ground {
        west,
        south,
        east,
        north,
    })
}
