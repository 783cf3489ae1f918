//! How long a body is by the fields of its head.
ghost use Rattle.std.specs.Prelude.{◌≡◌, ◌≤◌, ◌++◌, ◌∷◌, [], ℕ, List, map, length, All};
ghost use Rattle.std.specs.Prelude.{IsTrue, ◌↔◌};
ghost use Rattle.httparse.specs.Grammar.{AllPass};
ghost use Rattle.std.specs.Char.{is_ascii_digit};
ghost use Rattle.httparse.specs.Spans.{IsHeaderWithin, header_bytes};
ghost use Rattle.desk_calls.specs.Calls.{AreValues, IsSmall, digits_ask, fields_ask, is_named, length_asks};
ghost use Rattle.desk_calls.specs.Calls.{lengths_ask, values_of};

use crate::calls::{Asked, Call, Flaw};
use httparse::spans::HeaderSpan;

/// The most bytes of a body.
pub const MOST_BODY: usize = 2_200_000;

/// The values of the fields of one name: none, the only one, or more.
#[derive(Clone, Copy, Debug, PartialEq, Eq)]
pub enum Values<'a> {
    None,
    One(&'a [u8]),
    More,
}

/// Whether a field has this name, letters in either case.
fn is_named(input: &[u8], header: HeaderSpan, name: &[u8]) -> bool
    requires { IsHeaderWithin (length input.now) header }
    ensures { result ≡ is_named name.now (header_bytes input.now header) }
{
    header.name.of(input).eq_ignore_ascii_case(name)
}

/// The same values and one behind them.
fn with_one_more<'a>(found: Values<'a>, value: &'a [u8]) -> Values<'a>
    ensures { (before : List (List ℕ)) → AreValues before found.entry
        → AreValues (before ++ value.now ∷ []) result }
{
    match found {
        Values::None => Values::One(value),
        Values::One(_) => Values::More,
        Values::More => Values::More,
    }
}

/// The same values, and that of a field where it has this name.
fn with_field<'a>(found: Values<'a>, input: &'a [u8], header: HeaderSpan, name: &[u8]) -> Values<'a>
    requires { IsHeaderWithin (length input.now) header }
    ensures { (before : List (List ℕ)) → AreValues before found.entry
        → AreValues (before ++ values_of name.now (header_bytes input.now header ∷ [])) result }
{
    if is_named(input, header, name) {
        with_one_more(found, header.value.of(input))
    } else {
        found
    }
}

/// The values of the fields of this name.
pub fn values_of<'a>(input: &'a [u8], headers: &[HeaderSpan], name: &[u8]) -> Values<'a>
    requires { All (IsHeaderWithin (length input.now)) headers.now }
    ensures { AreValues (values_of name.now (map (header_bytes input.now) headers.now)) result }
{
    let mut found = Values::None;
    'fields: for header in headers {
        found = with_field(found, input, *header, name);
    }
    found
}

/// Whether a text is of digits alone.
pub(crate) fn are_digits(text: &[u8]) -> bool
    ensures { IsTrue result ↔ AllPass is_ascii_digit text.now }
{
    text.iter().all(|byte| byte.is_ascii_digit())
}

/// What digits ask as a Content-Length.
fn digits_ask(text: &[u8]) -> Asked
    requires { AllPass is_ascii_digit text.now }
    ensures asks { result ≡ digits_ask text.now }
    ensures small { IsSmall result }
{
    let mut size = 0;
    'digits: for digit in text {
        if size > MOST_BODY {
            return Asked::Now(Call::Refused(Flaw::TooLarge));
        }
        size = size * 10 + usize::from(*digit - b'0');
    }
    if size > MOST_BODY {
        return Asked::Now(Call::Refused(Flaw::TooLarge));
    }
    Asked::Body(size)
}

/// What the value of a Content-Length asks.
fn length_asks(text: &[u8]) -> Asked
    ensures asks { result ≡ length_asks text.now }
    ensures small { IsSmall result }
{
    if text.is_empty() || text.len() > 9 {
        return Asked::Now(Call::Refused(Flaw::BadRequest));
    }
    if !are_digits(text) {
        return Asked::Now(Call::Refused(Flaw::BadRequest));
    }
    digits_ask(text)
}

/// What the values of all Content-Length fields ask.
fn lengths_ask(lengths: Values<'_>) -> Asked
    ensures asks { (found : List (List ℕ)) → AreValues found lengths.entry → result ≡ lengths_ask found }
    ensures small { IsSmall result }
{
    match lengths {
        Values::None => Asked::Now(Call::Refused(Flaw::NoLength)),
        Values::One(text) => length_asks(text),
        Values::More => Asked::Now(Call::Refused(Flaw::BadRequest)),
    }
}

/// The body that the fields of a head announce, or what is wrong with them.
pub fn fields_ask(input: &[u8], headers: &[HeaderSpan]) -> Asked
    requires { All (IsHeaderWithin (length input.now)) headers.now }
    ensures asks { result ≡ fields_ask (map (header_bytes input.now) headers.now) }
    ensures small { IsSmall result }
{
    match values_of(input, headers, b"transfer-encoding") {
        Values::None => lengths_ask(values_of(input, headers, b"content-length")),
        _ => Asked::Now(Call::Refused(Flaw::BadRequest)),
    }
}
