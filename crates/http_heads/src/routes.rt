//! The routes of requests, and the places that they lead to.
ghost use Rattle.std.specs.Prelude.{◌≡◌, IfOk, OnOk};
ghost use Rattle.http_heads.specs.Routes.{path_of, route_place, routes, with_route};

use lei_values::NoMemory;
use matchit::Router;
use std::alloc::Global;

/// The method of a request (RFC 9110), if it is one that routes distinguish.
#[derive(Clone, Copy, Debug, PartialEq, Eq)]
pub enum Method {
    Put,
    Get,
    Other,
}

/// A place that requests name.
#[derive(Clone, Copy, Debug, PartialEq, Eq)]
pub enum Place {
    Issuer,
    Upload,
    Publication,
    Record,
    Copy,
    Delta,
    Status,
}

/// The router of all routes. The only error is lack of memory.
pub fn router(alloc: Global) -> Result<Router<Place>, NoMemory>
    ensures { IfOk result (λ router. router ≡ routes) }
{
    let mut router = Router::new(alloc);
    insert(&mut router, "/v1/issuers/{lou}", Place::Issuer)?;
    insert(
        &mut router,
        "/v1/issuers/{lou}/uploads/{number}",
        Place::Upload,
    )?;
    insert(&mut router, "/v1/publications/{number}", Place::Publication)?;
    insert(&mut router, "/v1/records/{lei}", Place::Record)?;
    insert(&mut router, "/v1/copies/{table}/{form}", Place::Copy)?;
    insert(
        &mut router,
        "/v1/deltas/{base}/{table}/{form}",
        Place::Delta,
    )?;
    insert(&mut router, "/v1/status", Place::Status)?;
    Ok(router)
}

fn insert(router: &mut Router<Place>, route: &str, place: Place) -> Result<(), NoMemory>
    ensures { OnOk result (router.new ≡ with_route route.now place router.old) }
{
    let inserted = router.insert(route, place);
    if inserted.is_ok() {
        Ok(())
    } else {
        Err(NoMemory)
    }
}

/// The path of a target.
pub fn path_of(target: &str) -> &str
    ensures { result.now ≡ path_of target.now }
{
    match target.split_once('?') {
        Some((path, _)) => path,
        None => target,
    }
}

/// The place of a path, if it has a route.
pub fn place_of(router: &Router<Place>, path: &str) -> Option<Place>
    requires { router.now ≡ routes }
    ensures { result ≡ route_place path.now }
{
    match router.at(path) {
        Ok(found) => Some(*found.value),
        Err(_) => None,
    }
}
