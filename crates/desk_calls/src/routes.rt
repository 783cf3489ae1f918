//! The routes of the desk.
ghost use Rattle.std.specs.Prelude.{◌≡◌, IfOk};
ghost use Rattle.desk_calls.specs.Heads.{desk_rows, path_of, route_of};

use matchit::{InsertError, Router};
use std::alloc::Global;

/// What a path is of.
#[derive(Clone, Copy, Debug, PartialEq, Eq)]
pub enum Route {
    Requests,
    Packages,
    Manifest,
    Receipt,
}

/// The four routes.
pub fn desk_routes(alloc: Global) -> Result<Router<Route>, InsertError>
    ensures { IfOk result (λ router. router ≡ desk_rows) }
{
    let mut router = Router::new(alloc);
    router.insert("/requests", Route::Requests)?;
    router.insert("/packages", Route::Packages)?;
    router.insert("/packages/{uuid}/manifest", Route::Manifest)?;
    router.insert("/receipts/{uuid}", Route::Receipt)?;
    Ok(router)
}

/// The route of a path.
pub fn route_of(router: &Router<Route>, path: &str) -> Option<Route>
    requires { router.now ≡ desk_rows }
    ensures { result ≡ route_of path.now }
{
    match router.at(path) {
        Ok(found) => Some(*found.value),
        Err(_) => None,
    }
}

/// The path of a target: what stands before its first question mark.
pub fn path_of<'a>(target: &'a str) -> &'a str
    ensures { result.now ≡ path_of target.now }
{
    match target.split_once('?') {
        Some((path, _)) => path,
        None => target,
    }
}
