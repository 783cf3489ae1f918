//! Whether a page of another address asks. A browser lets any page post to this machine, and says
//! by the Origin field which page it was.
ghost use Rattle.std.specs.Prelude.{◌≡◌, ℕ, List, All, length, map, codes};
ghost use Rattle.httparse.specs.Spans.{IsHeaderWithin, header_bytes};
ghost use Rattle.desk_calls.specs.Calls.{AreValues, origins_pass, values_of};

use crate::lengths::{Values, values_of};
use httparse::spans::HeaderSpan;

/// Whether these origins are the desk's own address alone, or none.
fn pass(own: &[u8], origins: Values<'_>) -> bool
    ensures { (found : List (List ℕ)) → AreValues found origins.entry → result ≡ origins_pass own.now found }
{
    match origins {
        Values::None => true,
        Values::One(origin) => origin == own,
        Values::More => false,
    }
}

/// Whether the Origin fields of a head let it pass: it has none, as that of a program that is no
/// browser, or the only one is the desk's own address.
pub fn origins_pass(own: &[u8], input: &[u8], headers: &[HeaderSpan]) -> bool
    requires { All (IsHeaderWithin (length input.now)) headers.now }
    ensures { result ≡ origins_pass own.now (values_of (codes "origin") (map (header_bytes input.now) headers.now)) }
{
    pass(own, values_of(input, headers, b"origin"))
}
