//! What a head asks: its route, its method, and then its fields or the UUID in its path.
ghost use Rattle.std.specs.Prelude.{◌≡◌, IfOk, All, length, map};
ghost use Rattle.httparse.specs.Grammar.{RequestHead};
ghost use Rattle.httparse.specs.Spans.{IsHeaderWithin, IsRequestAt, IsRequestWithin, header_bytes, name_and_value};
ghost use Rattle.desk_calls.specs.Calls.{HeadAsks, IsSmall, NamesBetween, PathAsks, RouteAsks, method_of};
ghost use Rattle.desk_calls.specs.Calls.{sender_passes};
ghost use Rattle.desk_calls.specs.Heads.{path_of, route_of};

use crate::calls::{Asked, Call, Flaw};
use crate::hosts::hosts_pass;
use crate::lengths::fields_ask;
use crate::origins::origins_pass;
use crate::routes::{Route, desk_routes, path_of, route_of};
use httparse::spans::{HeaderSpan, RequestSpans};
use sheet_types::error::OutOfMemory;
use sheet_types::reading::read_uuid;
use std::alloc::Global;
use std::str;
use uuid::Uuid;

/// The UUID that a path has between two texts, if what stands there is one.
fn uuid_between(path: &str, front: &str, back: &str) -> Option<Uuid>
    ensures { NamesBetween front.now back.now path.now result }
{
    let rest = path.strip_prefix(front)?;
    let text = rest.strip_suffix(back)?;
    read_uuid(text)
}

/// The method of a route.
fn method_of(route: Route) -> &'static [u8]
    ensures { result.now ≡ method_of route }
{
    match route {
        Route::Requests => b"POST",
        Route::Packages | Route::Manifest | Route::Receipt => b"GET",
    }
}

/// What a head asks on its route.
fn route_asks(input: &[u8], headers: &[HeaderSpan], route: Route, path: &str) -> Asked
    requires { All (IsHeaderWithin (length input.now)) headers.now }
    ensures asks { (h : RequestHead) → path.now ≡ path_of h.target
        → map (header_bytes input.now) headers.now ≡ map name_and_value h.fields → RouteAsks route h result }
    ensures small { IsSmall result }
{
    match route {
        Route::Requests => fields_ask(input, headers),
        Route::Packages => Asked::Now(Call::Packages),
        Route::Manifest => Asked::Now(Call::Manifest(uuid_between(
            path,
            "/packages/",
            "/manifest",
        ))),
        Route::Receipt => Asked::Now(Call::Receipt(uuid_between(path, "/receipts/", ""))),
    }
}

/// What a head asks, by the route of its path.
fn path_asks(
    alloc: Global,
    input: &[u8],
    headers: &[HeaderSpan],
    method: &[u8],
    path: &str,
) -> Result<Asked, OutOfMemory>
    requires { All (IsHeaderWithin (length input.now)) headers.now }
    ensures asks { IfOk result (λ asked. (h : RequestHead) → method.now ≡ h.method
        → path.now ≡ path_of h.target
        → map (header_bytes input.now) headers.now ≡ map name_and_value h.fields
        → PathAsks (route_of (path_of h.target)) h asked) }
    ensures small { IfOk result IsSmall }
{
    let Ok(routes) = desk_routes(alloc) else {
        return Err(OutOfMemory);
    };
    let Some(route) = route_of(&routes, path) else {
        return Ok(Asked::Now(Call::Refused(Flaw::NoSuchPath)));
    };
    if method != method_of(route) {
        return Ok(Asked::Now(Call::Refused(Flaw::BadMethod)));
    }
    Ok(route_asks(input, headers, route, path))
}

/// What a head asks that was found in the input, by its path.
fn target_asks(
    alloc: Global,
    input: &[u8],
    headers: &[HeaderSpan],
    head: RequestSpans,
) -> Result<Asked, OutOfMemory>
    requires { IsRequestWithin input.now headers.now head }
    ensures asks { IfOk result (λ asked. (h : RequestHead) → IsRequestAt input.now headers.now head h
        → PathAsks (route_of (path_of h.target)) h asked) }
    ensures small { IfOk result IsSmall }
{
    let Ok(target) = str::from_utf8(head.path.of(input)) else {
        return Ok(Asked::Now(Call::Refused(Flaw::NoSuchPath)));
    };
    path_asks(
        alloc,
        input,
        &headers[..head.headers],
        head.method.of(input),
        path_of(target),
    )
}

/// Whether the fields of a head let its sender pass: no page of another address asks.
fn sender_passes(own: &[u8], input: &[u8], headers: &[HeaderSpan]) -> bool
    requires { All (IsHeaderWithin (length input.now)) headers.now }
    ensures { result ≡ sender_passes own.now (map (header_bytes input.now) headers.now) }
{
    origins_pass(own, input, headers) & hosts_pass(input, headers)
}

/// What a head asks that was found in the input. A page of another address than the desk's own is
/// refused before anything else is looked at.
///
/// # Errors
///
/// Want of memory for the routes.
pub fn head_asks(
    alloc: Global,
    own: &[u8],
    input: &[u8],
    headers: &[HeaderSpan],
    head: RequestSpans,
) -> Result<Asked, OutOfMemory>
    requires { IsRequestWithin input.now headers.now head }
    ensures asks { IfOk result (λ asked. (h : RequestHead) → IsRequestAt input.now headers.now head h
        → HeadAsks own.now h asked) }
    ensures small { IfOk result IsSmall }
{
    if !sender_passes(own, input, &headers[..head.headers]) {
        return Ok(Asked::Now(Call::Refused(Flaw::BadOrigin)));
    }
    target_asks(alloc, input, headers, head)
}
