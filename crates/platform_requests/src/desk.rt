//! What answers requests, as a trait.
ghost use Rattle.std.specs.Prelude.{◌≡◌, ◌++◌, ◌∷◌, [], List, Bool};
ghost use Rattle.ebl_base.specs.declared.party.Party.{Party};
ghost use Rattle.platform_requests.specs.Desk.{Call, MayAsk, MayGive, NamesMissing};
ghost use Rattle.platform_requests.specs.Request.{request_view};

use crate::outcome::Outcome;
use crate::request::Request;
use ebl_base::{Moment, Party};
use std::alloc::Global;

/// What answers the requests of a platform.
///
/// Whoever serves links or carries messages is generic over the desk, and knows of it only what stands here.
pub trait Desk {
    /// A run: between the desk before, a list of calls, and the desk after them.
    ghost run: { Self → List Call → Self → Type 0 };

    /// Whether a party is one of this platform that the desk knows.
    ghost known: { Self → Party → Bool };

    /// Answers a request at a moment.
    ///
    /// A command has its form, and the document that it signs nests at most 126 deep (`canonical_json::nests_within`).
    fn take(&mut self, alloc: Global, now: Moment, request: Request) -> Outcome
        requires { MayAsk (request_view request) }
        ensures messages { MayGive (request_view request) result.messages }
        ensures missing { NamesMissing result.reply }
        // The call is the next one of every run that ended at the desk before it.
        ensures runs { (start : Self) (calls : List Call) → run start calls self.old
            → run start (calls ++ record { now = now; request = request_view request; outcome = result } ∷ [])
            self.new }
        ensures known { (party : Party) → known self.new party ≡ known self.old party };

    /// Whether a party is one of this platform that the desk knows.
    fn knows(&self, party: Party) -> bool
        ensures { result ≡ known self.now party };

    /// No call is a run of a desk to itself.
    ghost starts: { (desk : Self) → run desk [] desk };
}
