//! A shard as a desk.
ghost use Rattle.std.specs.Prelude.{◌≡◌, ◌++◌, ◌∷◌, [], List, IsTrue};
ghost use Rattle.ebl_base.specs.Moment.{IsMoment};
ghost use Rattle.ebl_base.specs.Party.{IsParty};
ghost use Rattle.holder_commands.specs.Command.{command_view};
ghost use Rattle.platform_requests.specs.Desk.{Call, MayAsk, MayGive, NamesMissing};
ghost use Rattle.platform_requests.specs.Request.{request_view};
ghost use Rattle.bill_diary.specs.History.{newest_first};
ghost use Rattle.transfer_judge.specs.Legal.{IsLegal};
ghost use Rattle.transfer_judge.specs.Plan.{HasAttempts};
ghost use Rattle.transfer_core.specs.Shard.{ShardRecord, is_own_party};
ghost use Rattle.transfer_core.specs.ShardDesk.{AreTaken, IsAskable, IsTaken};

use crate::shard::Shard;
use ebl_base::{Items, Moment, Party};
use holder_commands::Command;
use platform_requests::{Desk, Outcome, Reply, Request};
use signed_envelope::KeyRing;
use std::alloc::Global;
use transfer_judge::legal_diary_is_sound;

/// One shard in memory that answers the requests of a platform: its `take` is one [`Shard::take`].
///
/// A run of it is a list of calls, each of which the shard took. Like every desk it wants a command of its form, and
/// the document that it signs nested at most 126 deep (`canonical_json::nests_within`). Its shard wants more: that the
/// party and the moment are well-formed, as every one that was read is, and that of a bill on which the command acts
/// fewer than 4,294,967,295 entries were parted. Where one of these fails the desk answers `NoMemory`, and nothing
/// changes.
#[derive(Drop)]
pub struct ShardDesk<G: KeyRing> {
    pub shard: Shard<G>,
}

impl<G: KeyRing> Desk for ShardDesk<G> {
    ghost use Rattle.std.proofs.Common.{refl};
    ghost use Rattle.transfer_core.specs.Shard.{is_own_party};
    ghost use Rattle.transfer_core.specs.ShardDesk.{AreTaken};

    ghost run = { λ start calls end. AreTaken G.keys G.faults start.shard calls end.shard };

    ghost known = { λ desk party. is_own_party desk.shard.me desk.shard.roster party };

    fn take(&mut self, alloc: Global, now: Moment, request: Request) -> Outcome {
        take_if_askable(&mut self.shard, alloc, now, request)
    }

    fn knows(&self, party: Party) -> bool {
        self.shard.knows(party)
    }

    ghost starts = { λ desk. refl };
}

// The shard takes the request, if it may be asked that.
fn take_if_askable<G: KeyRing>(
    shard: &mut Shard<G>,
    alloc: Global,
    now: Moment,
    request: Request,
) -> Outcome
    requires { MayAsk (request_view request) }
    ensures messages { MayGive (request_view request) result.messages }
    ensures missing { NamesMissing result.reply }
    ensures taken { IsTaken G.keys G.faults shard.old
        (record { now = now; request = request_view request; outcome = result }) shard.new }
    ensures runs { (start : ShardRecord G) (calls : List Call) → AreTaken G.keys G.faults start calls shard.old
        → AreTaken G.keys G.faults start
        (calls ++ record { now = now; request = request_view request; outcome = result } ∷ []) shard.new }
    ensures known { (party : Party) → is_own_party shard.new.me shard.new.roster party
        ≡ is_own_party shard.old.me shard.old.roster party }
{
    legal_diary_is_sound();
    if is_askable(&*shard, now, &request) {
        shard.take(alloc, now, request)
    } else {
        out_of_memory(alloc)
    }
}

fn out_of_memory(alloc: Global) -> Outcome
    ensures { result ≡ record { reply = Reply.NoMemory; messages = [] } }
{
    Outcome {
        reply: Reply::NoMemory,
        messages: Items::new(alloc),
    }
}

// Whether a shard may be asked what any desk may be asked.
fn is_askable<G: KeyRing>(shard: &Shard<G>, now: Moment, request: &Request) -> bool
    ensures askable { IsTrue result → IsAskable shard.now.diary now (request_view request.now) }
    ensures legal { IsLegal shard.now.roster (G.keys shard.now.ring) shard.now.me shard.now.diary }
{
    // For its clause `legal`.
    let _ = shard.diary();
    match request {
        Request::Command { party, command } => is_askable_by(shard, now, *party, command),
        Request::Start { .. } => true,
        Request::Put { .. } => true,
        Request::Finish { .. } => true,
        Request::StartReply { .. } => true,
        Request::FinishReply { .. } => true,
        Request::Resend { .. } => true,
        Request::Ask { .. } => true,
    }
}

fn is_askable_by<G: KeyRing>(shard: &Shard<G>, now: Moment, party: Party, command: &Command) -> bool
    ensures party { IsTrue result → IsParty party }
    ensures time { IsTrue result → IsMoment now }
    ensures attempts { IsTrue result → HasAttempts (command_view command.now) (newest_first shard.now.diary) }
{
    party.is_well_formed() && now.is_well_formed() && shard.has_attempts(command)
}
