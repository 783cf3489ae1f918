//! Whether a page asks under a name that was made to lead to this machine. A browser sends no Origin
//! field with a GET to the name that the page came from, and tells that name in the Host field.
ghost use Rattle.std.specs.Prelude.{◌≡◌, ℕ, List, All, length, map, codes};
ghost use Rattle.httparse.specs.Spans.{IsHeaderWithin, header_bytes};
ghost use Rattle.desk_calls.specs.Calls.{AreValues, hosts_pass, is_host, is_port, is_this_machine, values_of};

use crate::lengths::{Values, are_digits, values_of};
use httparse::spans::HeaderSpan;

/// Whether a text is empty, or a colon and a port, which may be empty too (RFC 3986, section 3.2.3).
fn is_port(text: &[u8]) -> bool
    ensures { result ≡ is_port text.now }
{
    match text.split_first() {
        Some((first, digits)) => (*first == b':') & are_digits(digits),
        None => true,
    }
}

/// Whether a text is this name, letters in either case, with any port or none.
fn is_host(name: &[u8], text: &[u8]) -> bool
    ensures { result ≡ is_host name.now text.now }
{
    match text.split_at_checked(name.len()) {
        Some((front, port)) => front.eq_ignore_ascii_case(name) & is_port(port),
        None => false,
    }
}

/// Whether a text is a name of the machine that the desk runs on.
fn is_this_machine(text: &[u8]) -> bool
    ensures { result ≡ is_this_machine text.now }
{
    is_host(b"127.0.0.1", text) | is_host(b"localhost", text)
}

/// Whether these hosts are one name of this machine, or none.
fn pass(hosts: Values<'_>) -> bool
    ensures { (found : List (List ℕ)) → AreValues found hosts.entry → result ≡ hosts_pass found }
{
    match hosts {
        Values::None => true,
        Values::One(host) => is_this_machine(host),
        Values::More => false,
    }
}

/// Whether the Host fields of a head let it pass: it has none, as that of HTTP/1.0, or the only one
/// is a name of this machine (RFC 9110, section 7.2).
pub fn hosts_pass(input: &[u8], headers: &[HeaderSpan]) -> bool
    requires { All (IsHeaderWithin (length input.now)) headers.now }
    ensures { result ≡ hosts_pass (values_of (codes "host") (map (header_bytes input.now) headers.now)) }
{
    pass(values_of(input, headers, b"host"))
}
