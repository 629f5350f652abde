//! One session.
ghost use Rattle.std.specs.Prelude.{◌≡◌, ◌≤◌, ◌++◌, List, [], drop, length, OnOk, IfErr, IsErrOf};
ghost use Rattle.ebl_base.specs.Faults.{Rose};
ghost use Rattle.ebl_base.specs.declared.party.Party.{Party};
ghost use Rattle.platform_requests.specs.Desk.{Call, MayAsk};
ghost use Rattle.platform_requests.specs.Request.{request_view};
ghost use Rattle.http_heads.specs.declared.status.Status.TheVariants as statuses;
ghost use Rattle.http_requests.specs.Asked.{MayBeAsked, asked_view, of_desk, of_party};
ghost use Rattle.pint_http.specs.Answered.{Answered, IsReplyFault};
ghost use Rattle.pint_http.specs.Reply.{known_body, reply_text};
ghost use Rattle.pint_http.specs.Session.{GoesOn, Served, Wrote};
ghost use Rattle.std.specs.Io.KnownBytes.{Appends};

use crate::known::known_body;
use crate::reply::{put_reply, refuse, status_of};
use ebl_base::Party;
use ebl_edge::{Clock, Link};
use http_heads::{Plans, Status};
use http_requests::{Asked, Front, LinkEnd, asked_of, await_next};
use platform_requests::{Desk, Outcome, Request};
use reply_forms::reply_body;
use std::alloc::Global;

/// The most replies of a session.
pub const MOST_REPLIES: u32 = 1_000_000;

/// Serves one link: reads requests, in whatever pieces they come, and writes a reply to each, until a reply closes the
/// link, the input ends, a call of the link fails, memory runs out, or [`MOST_REPLIES`] replies are written.
///
/// What is written is a function of the bytes that were read and of the desk's outcomes. The clock is read once for
/// each request of the desk. Every run that ended at the desk at the entry goes on by the calls of the session, so the
/// calls of several links that one desk serves are one run; the desk's test of parties stays. A fault of the link is
/// answered only if the link's count of faults rose.
///
/// It keeps at most 16,384 bytes, or one request, in memory, and copies each body once. A body that is refused by its
/// head is left in the link behind those bytes.
pub fn serve_link<L: Link, K: Desk, C: Clock>(
    alloc: Global,
    link: &mut L,
    desk: &mut K,
    clock: &mut C,
) -> LinkEnd
    ensures served { Served result (L.left link.old) (L.left link.new) (L.written link.old) (L.written link.new)
        (C.given clock.old) (C.given clock.new) (K.known desk.old) (λ calls. GoesOn K.run desk.old calls desk.new) }
    ensures known { (party : Party) → K.known desk.new party ≡ K.known desk.old party }
    ensures read_fault { result ≡ LinkEnd.ReadFault → Rose (L.faults link.old) (L.faults link.new) }
    ensures write_fault { result ≡ LinkEnd.WriteFault → Rose (L.faults link.old) (L.faults link.new) }
    ensures later { L.faults link.old ≤ L.faults link.new }
{
    match Plans::new(alloc) {
        Ok(plans) => serve_with(alloc, link, desk, clock, &plans),
        Err(_) => LinkEnd::NoMemory,
    }
}

// The same, with the table of paths.
fn serve_with<L: Link, K: Desk, C: Clock>(
    alloc: Global,
    link: &mut L,
    desk: &mut K,
    clock: &mut C,
    plans: &Plans,
) -> LinkEnd
    ensures served { Served result (L.left link.old) (L.left link.new) (L.written link.old) (L.written link.new)
        (C.given clock.old) (C.given clock.new) (K.known desk.old) (λ calls. GoesOn K.run desk.old calls desk.new) }
    ensures known { (party : Party) → K.known desk.new party ≡ K.known desk.old party }
    ensures read_fault { result ≡ LinkEnd.ReadFault → Rose (L.faults link.old) (L.faults link.new) }
    ensures write_fault { result ≡ LinkEnd.WriteFault → Rose (L.faults link.old) (L.faults link.new) }
    ensures later { L.faults link.old ≤ L.faults link.new }
{
    let mut buffer = Vec::new(alloc);
    for _count in 0..MOST_REPLIES {
        let front = match await_next(link, plans, &mut buffer) {
            Ok(front) => front,
            Err(e) => return e,
        };
        match front {
            Front::Refused(status) => return refuse(alloc, link, status),
            Front::Whole {
                route,
                start,
                end,
                keeps,
            } => {
                let asked = match asked_of(alloc, route, &buffer[start..end]) {
                    Ok(Some(asked)) => asked,
                    Ok(None) => return refuse(alloc, link, Status::BadRequest),
                    Err(_) => return LinkEnd::NoMemory,
                };
                match answer(alloc, link, desk, clock, asked, keeps) {
                    Ok(()) => {}
                    Err(e) => return e,
                }
                if !keeps {
                    return LinkEnd::Closed;
                }
                drop_front(&mut buffer, end);
            }
        }
    }
    LinkEnd::Limit
}

// Answers one request.
fn answer<L: Link, K: Desk, C: Clock>(
    alloc: Global,
    link: &mut L,
    desk: &mut K,
    clock: &mut C,
    asked: Asked,
    keeps: bool,
) -> Result<(), LinkEnd>
    requires { MayBeAsked asked }
    ensures ok { OnOk result (Answered LinkEnd.Closed (record { asks = asked_view asked; keeps = keeps })
        (L.written link.old) (L.written link.new) (C.given clock.old) (C.given clock.new) (K.known desk.old)
        (λ calls. GoesOn K.run desk.old calls desk.new)) }
    ensures err { IfErr result (λ e. Answered e (record { asks = asked_view asked; keeps = keeps })
        (L.written link.old) (L.written link.new) (C.given clock.old) (C.given clock.new) (K.known desk.old)
        (λ calls. GoesOn K.run desk.old calls desk.new)) }
    ensures fails { IfErr result (λ e. IsReplyFault e) }
    ensures known { (party : Party) → K.known desk.new party ≡ K.known desk.old party }
    ensures fault { IsErrOf result LinkEnd.WriteFault → Rose (L.faults link.old) (L.faults link.new) }
    ensures left { L.left link.new ≡ L.left link.old }
    ensures later { L.faults link.old ≤ L.faults link.new }
{
    match asked {
        Asked::Party(party) => test(alloc, link, desk, party, keeps),
        Asked::Desk(request) => ask(alloc, link, desk, clock, request, keeps),
    }
}

// Answers a request by the desk.
fn ask<L: Link, K: Desk, C: Clock>(
    alloc: Global,
    link: &mut L,
    desk: &mut K,
    clock: &mut C,
    request: Request,
    keeps: bool,
) -> Result<(), LinkEnd>
    requires { MayAsk (request_view request) }
    ensures ok { OnOk result (Answered LinkEnd.Closed (record { asks = of_desk (request_view request); keeps = keeps })
        (L.written link.old) (L.written link.new) (C.given clock.old) (C.given clock.new) (K.known desk.old)
        (λ calls. GoesOn K.run desk.old calls desk.new)) }
    ensures err { IfErr result (λ e. Answered e (record { asks = of_desk (request_view request); keeps = keeps })
        (L.written link.old) (L.written link.new) (C.given clock.old) (C.given clock.new) (K.known desk.old)
        (λ calls. GoesOn K.run desk.old calls desk.new)) }
    ensures fails { IfErr result (λ e. IsReplyFault e) }
    ensures known { (party : Party) → K.known desk.new party ≡ K.known desk.old party }
    ensures fault { IsErrOf result LinkEnd.WriteFault → Rose (L.faults link.old) (L.faults link.new) }
    ensures left { L.left link.new ≡ L.left link.old }
    ensures later { L.faults link.old ≤ L.faults link.new }
{
    let now = clock.now();
    let Outcome { reply, .. } = desk.take(alloc, now, request);
    let status = status_of(&reply);
    let body = match reply_body(alloc, reply) {
        Ok(body) => body,
        Err(_) => return Err(LinkEnd::NoMemory),
    };
    put_reply(alloc, link, status, &body, keeps)
}

// Answers whether a party is known.
fn test<L: Link, K: Desk>(
    alloc: Global,
    link: &mut L,
    desk: &K,
    party: Party,
    keeps: bool,
) -> Result<(), LinkEnd>
    ensures wrote { OnOk result (Appends (L.written link.old) (L.written link.new)
        (reply_text statuses.Ok (known_body (K.known desk.now party)) keeps)) }
    ensures err { IfErr result (λ e. Wrote e (L.written link.old) (L.written link.new)
        (reply_text statuses.Ok (known_body (K.known desk.now party)) keeps)) }
    ensures fails { IfErr result (λ e. IsReplyFault e) }
    ensures fault { IsErrOf result LinkEnd.WriteFault → Rose (L.faults link.old) (L.faults link.new) }
    ensures left { L.left link.new ≡ L.left link.old }
    ensures later { L.faults link.old ≤ L.faults link.new }
{
    let body = match known_body(alloc, desk.knows(party)) {
        Ok(body) => body,
        Err(_) => return Err(LinkEnd::NoMemory),
    };
    put_reply(alloc, link, Status::Ok, &body, keeps)
}

// Takes so many bytes off the front.
fn drop_front(buffer: &mut Vec<u8>, count: usize)
    requires { count ≤ length buffer.old.items }
    ensures { buffer.new.items ≡ drop count buffer.old.items }
{
    let rest = buffer.len() - count;
    buffer.copy_within(count.., 0);
    buffer.truncate(rest);
}
