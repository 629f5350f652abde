//! A desk in memory, for tests of what is generic over a desk.
ghost use Rattle.std.specs.Prelude.{◌≡◌, ◌∷◌, [], Some, None, IfOk, map, MatchOption};
ghost use Rattle.platform_requests.specs.Desk.{MayAsk, MayGive, NamesMissing};
ghost use Rattle.platform_requests.specs.MemoryDesk.{call_view};
ghost use Rattle.platform_requests.specs.Request.{request_view};

use crate::desk::Desk;
use crate::kept_call::KeptCall;
use crate::message::MessageList;
use crate::outcome::Outcome;
use crate::reply::Reply;
use crate::request::Request;
use crate::suiting::suits;
use ebl_base::{Copied, Moment, NoMemory, Party};
use std::alloc::Global;

/// A desk in memory: it gives the outcomes that it was made with, one a call, and keeps every call.
///
/// For a request that the next outcome doesn't suit, and once there is none left, it gives UnknownReference without
/// messages. From the first call on that it has no memory to keep, it tells nothing of its calls.
#[derive(Drop)]
pub struct MemoryDesk {
    // The outcomes to give, the last one first.
    outcomes: Vec<Outcome>,
    parties: Vec<Party>,
    kept: Vec<KeptCall>,
    tells: bool,
}

impl MemoryDesk {
    ghost use Rattle.platform_requests.specs.MemoryDesk.{Keeps, kept_calls, known_parties};

    /// A desk that gives these outcomes, the last one first, and knows these parties.
    pub fn new(alloc: Global, outcomes: Vec<Outcome>, parties: Vec<Party>) -> MemoryDesk
        ensures kept { kept_calls result ≡ Some [] }
        ensures parties { known_parties result ≡ parties.items }
    {
        MemoryDesk {
            outcomes,
            parties,
            kept: Vec::new(alloc),
            tells: true,
        }
    }

    /// The calls that were kept, in order; none once one couldn't be kept.
    pub fn calls(&self) -> Option<&[KeptCall]>
        ensures { MatchOption result (kept_calls self.now ≡ None)
            (λ calls. kept_calls self.now ≡ Some (map call_view calls.now)) }
    {
        if self.tells {
            Some(self.kept.as_slice())
        } else {
            None
        }
    }

    // The next outcome, if it suits.
    fn next(&mut self, alloc: Global, request: &Request) -> Outcome
        ensures messages { MayGive (request_view request.now) result.messages }
        ensures missing { NamesMissing result.reply }
        ensures kept { kept_calls self.new ≡ kept_calls self.old }
        ensures parties { known_parties self.new ≡ known_parties self.old }
    {
        if let Some(outcome) = self.outcomes.pop() {
            if suits(request, &outcome) {
                return outcome;
            }
        }
        unknown(alloc, request)
    }

    fn keep(&mut self, alloc: Global, now: Moment, request: Request, outcome: &Outcome)
        ensures kept { Keeps (kept_calls self.old)
            (record { now = now; request = request_view request; outcome = outcome.now } ∷ []) (kept_calls self.new) }
        ensures parties { known_parties self.new ≡ known_parties self.old }
    {
        match call(alloc, now, request, outcome) {
            Ok(call) => self.add(call),
            Err(NoMemory) => self.tells = false,
        }
    }

    fn add(&mut self, call: KeptCall)
        ensures kept { Keeps (kept_calls self.old) (call_view call ∷ []) (kept_calls self.new) }
        ensures parties { known_parties self.new ≡ known_parties self.old }
    {
        if self.kept.push(call).is_err() {
            self.tells = false;
        }
    }
}

// A call, with a copy of its outcome.
fn call(
    alloc: Global,
    now: Moment,
    request: Request,
    outcome: &Outcome,
) -> Result<KeptCall, NoMemory>
    ensures { IfOk result (λ call. call_view call
        ≡ record { now = now; request = request_view request; outcome = outcome.now }) }
{
    match outcome.copy(alloc) {
        Ok(outcome) => Ok(KeptCall {
            now,
            request,
            outcome,
        }),
        Err(refused) => {
            drop(request);
            Err(refused)
        }
    }
}

// No transfer is known.
fn unknown(alloc: Global, request: &Request) -> Outcome
    ensures messages { MayGive (request_view request.now) result.messages }
    ensures missing { NamesMissing result.reply }
{
    let _ = request;
    Outcome {
        reply: Reply::UnknownReference,
        messages: MessageList::new(alloc),
    }
}

impl Desk for MemoryDesk {
    ghost use Rattle.std.proofs.Common.{sym, append-nil};
    ghost use Rattle.platform_requests.specs.MemoryDesk.{Keeps, is_known, kept_calls, known_parties};

    ghost run = { λ before calls after. Keeps (kept_calls before) calls (kept_calls after) };

    ghost known = { λ desk party. is_known (known_parties desk) party };

    fn take(&mut self, alloc: Global, now: Moment, request: Request) -> Outcome {
        let outcome = self.next(alloc, &request);
        self.keep(alloc, now, request, &outcome);
        outcome
    }

    fn knows(&self, party: Party) -> bool {
        self.parties.iter().any(|p| *p == party)
    }

    ghost starts = { λ desk. elim (kept_calls desk) as (λ kept. Keeps kept [] kept)
        [ None ↦ tt | Some calls ↦ sym (append-nil calls) ] };
}
