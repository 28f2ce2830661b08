//! Finds the route of a path with a router of seven routes.

ghost use Rattle.std.specs.Prelude.{◌≡◌, IfOk, option_map};
ghost use Rattle.hub_http.specs.Parts.{parts};
ghost use Rattle.hub_http.specs.Paths as spec;

use crate::route::Route;
use matchit::{InsertError, Router};
use std::alloc::{AllocError, Global};
use std::marker::Model;

// Adds one route to a router. The router is passed in and returned, so that nothing is left to drop if memory runs out.
fn with_route(
    mut router: Router<Route>,
    text: &str,
    route: Route,
) -> Result<Router<Route>, InsertError>
    ensures { IfOk result (λ with. with ≡ spec.added text.now route router) }
{
    router.insert(text, route)?;
    Ok(router)
}

// Makes the router of the seven routes.
fn seven_routes(alloc: Global) -> Result<Router<Route>, InsertError>
    ensures { IfOk result (λ router. router ≡ spec.seven) }
{
    let router = Router::new(alloc);
    let router = with_route(router, "/p/{gln}/interchanges", Route::Interchanges)?;
    let router = with_route(router, "/p/{gln}/mail/after/{n}", Route::MailAfter)?;
    let router = with_route(router, "/p/{gln}/mail/item/{n}", Route::MailItem)?;
    let router = with_route(router, "/p/{gln}/mail/item/{n}/taken", Route::MailTaken)?;
    let router = with_route(router, "/p/{gln}/status", Route::Status)?;
    let router = with_route(router, "/p/{gln}/status/{supplier}", Route::StatusOf)?;
    with_route(router, "/p/{gln}/cancellations", Route::Cancellations)
}

/// The router of the seven routes. Make it once, and use it for every path.
#[derive(Drop)]
pub struct Paths {
    router: Router<Route>,
}

impl Model for Paths {
    ghost use Rattle.hub_http.specs.Paths.{Routes};

    ghost Value = { Routes };

    ghost use Rattle.hub_http.specs.Paths.{routes_in, IsSeven};

    ghost view = { routes_in };

    ghost invariant = { IsSeven };
}

impl Paths {
    /// Makes the router. Fails only if memory runs out.
    pub fn new(alloc: Global) -> Result<Self, AllocError> {
        match seven_routes(alloc) {
            Ok(router) => Ok(Paths { router }),
            Err(_) => Err(AllocError),
        }
    }

    /// Returns the route of a path, or `None` if it is not a path of any of the seven; `parts_in` then finds its parts.
    /// The path is the target of a request in origin form without its query (RFC 9112, section 3.2.1), and nothing in it
    /// is decoded. Takes no memory.
    pub fn route_of(&self, path: &str) -> Option<Route>
        ensures { option_map (λ route. (route, parts route path.now)) result ≡ spec.route_at path.now }
    {
        match self.router.at(path) {
            Ok(found) => Some(*found.value),
            Err(_) => None,
        }
    }
}
