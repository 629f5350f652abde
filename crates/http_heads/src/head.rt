//! A piece of input as the head of a request.
ghost use Rattle.std.specs.Prelude.{◌≡◌, ◌≤◌, codes, length, map, true, All, IfSome, IfNone};
ghost use Rattle.std.specs.Str.{IsUtf8};
ghost use Rattle.std.specs.Str.Parse.{digits_value};
ghost use Rattle.httparse.specs.Grammar.{RequestHead};
ghost use Rattle.httparse.specs.Spans.{IsHeaderWithin, IsRequestAt, IsRequestWithin, header_bytes, span_bytes};
ghost use Rattle.http_heads.specs.Fields.{keeps_open, values, first_of, is_length};
ghost use Rattle.http_heads.specs.Route.{paths};
ghost use Rattle.http_heads.specs.Plan.{IsBounded, IsHead, IsPlan, plan, routed, sized, within};

use crate::fields::{
    MAX_BODY, are_all, capped_length, closes, first_value, has_field, is_length, is_text,
};
use crate::plan::Plan;
use crate::route::Route;
use crate::routes::{Endpoint, route_of, router};
use crate::status::Status;
use ebl_base::NoMemory;
use httparse::Status as Parsed;
use httparse::spans::{EMPTY_HEADER_SPAN, HeaderSpan, RequestSpans, parse_request};
use matchit::Router;
use std::alloc::Global;

/// The most header fields of a head.
pub const MAX_FIELDS: usize = 64;

/// Reads heads: it knows the paths of the six routes.
#[derive(Drop)]
pub struct Plans {
    router: Router<Endpoint>,
    ghost known: { router ≡ paths },
}

impl Plans {
    /// Allocates the table of paths, once for any number of heads.
    pub fn new(alloc: Global) -> Result<Plans, NoMemory> {
        let router = router(alloc)?;
        Ok(Plans { router })
    }

    /// What a piece that ends with its first empty line asks for.
    ///
    /// The first that applies is the status: 400 where it is no head by the default form of `httparse` or has more than
    /// 64 fields, 501, 404, 405, 411, 400, 413. It allocates nothing.
    pub fn plan_of(&self, piece: &[u8]) -> Plan
        ensures plan { IsPlan piece.now result }
        ensures bounded { IsBounded result }
    {
        let mut headers = [EMPTY_HEADER_SPAN; MAX_FIELDS];
        match whole_head(piece, &mut headers) {
            Some(head) => plan(
                &self.router,
                piece,
                head.method.of(piece),
                head.path.of(piece),
                head.version,
                &headers[..head.headers],
            ),
            None => Plan::Refuse(Status::BadRequest),
        }
    }
}

// The head that the whole piece is.
fn whole_head(piece: &[u8], headers: &mut [HeaderSpan]) -> Option<RequestSpans>
    requires { length headers.old ≡ MAX_FIELDS }
    ensures some { IfSome result (λ spans. (h : RequestHead) × IsHead piece.now h
        × IsRequestAt piece.now headers.new spans h) }
    ensures within { IfSome result (λ spans. IsRequestWithin piece.now headers.new spans) }
    ensures text { IfSome result (λ spans. IsUtf8 (span_bytes piece.now spans.path)) }
    ensures none { IfNone result ((h : RequestHead) → IsHead piece.now h → ⊥) }
{
    match parse_request(piece, headers) {
        Ok(Parsed::Complete(head)) => {
            if head.len == piece.len() {
                Some(head)
            } else {
                None
            }
        }
        _ => None,
    }
}

fn plan(
    router: &Router<Endpoint>,
    piece: &[u8],
    method: &[u8],
    target: &[u8],
    minor: u8,
    headers: &[HeaderSpan],
) -> Plan
    requires paths { router.now ≡ paths }
    requires text { IsUtf8 target.now }
    requires within { All (IsHeaderWithin (length piece.now)) headers.now }
    ensures bounded { IsBounded result }
    ensures plan { result ≡ plan method.now target.now minor (map (header_bytes piece.now) headers.now) }
{
    if has_field(piece, headers, b"transfer-encoding") {
        return Plan::Refuse(Status::NotImplemented);
    }
    let Some(route) = route_of(router, target) else {
        return Plan::Refuse(Status::NotFound);
    };
    if !is_text(route.method(), method) {
        return Plan::Refuse(Status::MethodNotAllowed);
    }
    sized(piece, headers, route, keeps_open(piece, headers, minor))
}

fn keeps_open(piece: &[u8], headers: &[HeaderSpan], minor: u8) -> bool
    requires { All (IsHeaderWithin (length piece.now)) headers.now }
    ensures { result ≡ keeps_open minor (map (header_bytes piece.now) headers.now) }
{
    minor == 1 && !closes(piece, headers)
}

// By the lengths that are stated.
fn sized(piece: &[u8], headers: &[HeaderSpan], route: Route, keeps: bool) -> Plan
    requires { All (IsHeaderWithin (length piece.now)) headers.now }
    ensures bounded { IsBounded result }
    ensures plan { result ≡ sized route keeps (first_of (values (codes "content-length") (map (header_bytes piece.now) headers.now)))
        (values (codes "content-length") (map (header_bytes piece.now) headers.now)) }
{
    let Some(text) = first_value(piece, headers, b"content-length") else {
        return if route.states_length() {
            Plan::Refuse(Status::LengthRequired)
        } else {
            Plan::Await {
                route,
                length: 0,
                keeps,
            }
        };
    };
    if is_length(text) && are_all(piece, headers, b"content-length", text) {
        within(route, text, keeps)
    } else {
        Plan::Refuse(Status::BadRequest)
    }
}

// A body whose length these digits write.
fn within(route: Route, text: &[u8], keeps: bool) -> Plan
    requires { is_length text.now ≡ true }
    ensures bounded { IsBounded result }
    ensures plan { result ≡ within route (digits_value 10 text.now) keeps }
{
    let length = capped_length(text);
    if length <= MAX_BODY {
        Plan::Await {
            route,
            length,
            keeps,
        }
    } else {
        Plan::Refuse(Status::PayloadTooLarge)
    }
}
