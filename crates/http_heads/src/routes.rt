//! The paths of the six routes.
ghost use Rattle.std.specs.Prelude.{◌≡◌, [], OnOk, IfOk};
ghost use Rattle.std.specs.Str.{IsUtf8};
ghost use Rattle.http_heads.specs.Route.{with_path, endpoint_of, route_of, route_at, paths};

use crate::route::Route;
use crate::segments::segment;
use document_checksum::from_text;
use ebl_base::NoMemory;
use matchit::Router;
use std::alloc::Global;
use upload_state::reference_from;

/// Which of the six paths a target is.
#[derive(Clone, Copy, Debug, PartialEq, Eq)]
pub enum Endpoint {
    Start,
    Document,
    Finish,
    Validation,
    Command,
    Bill,
}

/// The table of the six paths.
pub(crate) fn router(alloc: Global) -> Result<Router<Endpoint>, NoMemory>
    ensures { IfOk result (λ table. table ≡ paths) }
{
    let mut router = Router::new(alloc);
    add_paths(&mut router)?;
    Ok(router)
}

fn add_paths(router: &mut Router<Endpoint>) -> Result<(), NoMemory>
    requires { router.old ≡ [] }
    ensures { OnOk result (router.new ≡ paths) }
{
    add(router, "/v3/envelopes", Endpoint::Start)?;
    add(
        router,
        "/v3/envelopes/{reference}/additional-documents/{checksum}",
        Endpoint::Document,
    )?;
    add(
        router,
        "/v3/envelopes/{reference}/finish-transfer",
        Endpoint::Finish,
    )?;
    add(router, "/v3/receiver-validation", Endpoint::Validation)?;
    add(router, "/v3/holder-commands", Endpoint::Command)?;
    add(router, "/v3/bills/{bill}", Endpoint::Bill)?;
    Ok(())
}

fn add(router: &mut Router<Endpoint>, path: &str, endpoint: Endpoint) -> Result<(), NoMemory>
    ensures { OnOk result (router.new ≡ with_path path.now endpoint router.old) }
{
    match router.insert(path, endpoint) {
        Ok(()) => Ok(()),
        Err(_) => Err(NoMemory),
    }
}

fn endpoint_of(router: &Router<Endpoint>, target: &str) -> Option<Endpoint>
    requires { router.now ≡ paths }
    ensures { result ≡ endpoint_of target.now }
{
    match router.at(target) {
        Ok(found) => Some(*found.value),
        Err(_) => None,
    }
}

/// The route of a target, which is UTF-8.
pub(crate) fn route_of(router: &Router<Endpoint>, target: &[u8]) -> Option<Route>
    requires paths { router.now ≡ paths }
    requires text { IsUtf8 target.now }
    ensures { result ≡ route_of target.now }
{
    let text = std::str::from_utf8(target).unwrap();
    let endpoint = endpoint_of(router, text)?;
    route_at(target, endpoint)
}

fn route_at(target: &[u8], endpoint: Endpoint) -> Option<Route>
    ensures { result ≡ route_at target.now endpoint }
{
    match endpoint {
        Endpoint::Start => Some(Route::Start),
        Endpoint::Document => document_at(target),
        Endpoint::Finish => {
            let reference = reference_from(segment(target, 3))?;
            Some(Route::Finish { reference })
        }
        Endpoint::Validation => Some(Route::Validation),
        Endpoint::Command => Some(Route::Command),
        Endpoint::Bill => {
            let bill = from_text(segment(target, 3))?;
            Some(Route::Bill { bill })
        }
    }
}

fn document_at(target: &[u8]) -> Option<Route>
    ensures { result ≡ route_at target.now Endpoint.Document }
{
    let reference = reference_from(segment(target, 3))?;
    let checksum = from_text(segment(target, 5))?;
    Some(Route::Document {
        reference,
        checksum,
    })
}
