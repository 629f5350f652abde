//! A request at a shard, in its turn: the journal is read again where it has to be, and then the request is taken.
ghost use Rattle.std.specs.Prelude.{◌≡◌, ◌⊎◌, ◌+◌, ◌<◌, ◌≤◌, ◌++◌, IsErrOf, IsTrue, Option, IfErr, OnErr, OnOk, ℕ, is_some, length, take, true};
ghost use Rattle.std.specs.Option.{option_to_list};
ghost use mathlib.Core.List.{IsPrefix};
ghost use Rattle.ebl_base.specs.Faults.{Rose};
ghost use Rattle.bill_diary.specs.declared.frame.Frame.{Frame};
ghost use Rattle.platform_requests.specs.Request.{request_view};
ghost use Rattle.platform_requests.specs.Shard.{shard_of};
ghost use Rattle.platform_requests.specs.declared.reply.Reply.TheVariants as replies;
ghost use Rattle.journaled_shard.specs.Shard.{IsOfReading, MayBeAskedOf};
ghost use Rattle.journaled_shard.specs.Written.{IsKeptOrDropped, IsRead};
ghost use Rattle.platform_office.specs.Post.{IsInOrder};
ghost use Rattle.platform_office.specs.Served.{IsServed, MayBeServed, is_disk, is_sign};

use crate::served::Served;
use disk_model::Disk;
use ebl_base::{Items, Moment};
use journaled_shard::{JournaledShard, reply_for};
use platform_requests::{Outcome, Reply, Request};
use run_safety::steps_write_in_the_shard_of_their_request;
use signed_envelope::KeyRing;
use std::alloc::Global;

/// A shard with more frames isn't opened, and one with as many takes no request: with a loose frame and the request's
/// own they could still be counted.
pub(crate) const FRAMES: usize = 4_294_967_293;

/// A request at the shard of this number, which is the request's.
pub(crate) fn ask<D: Disk, G: KeyRing>(
    alloc: Global,
    number: u32,
    shard: &mut JournaledShard<D, G>,
    now: Moment,
    request: Request,
) -> Served
    requires may { MayBeServed now (request_view request) }
    requires here { shard_of (request_view request) ≡ number }
    requires order { IsInOrder D.tells G.keys D.seen D.may_leave number shard.old }
    ensures order { IsInOrder D.tells G.keys D.seen D.may_leave number shard.new }
    ensures me { shard.new.me ≡ shard.old.me }
    ensures roster { shard.new.roster ≡ shard.old.roster }
    ensures keys { G.keys shard.new.ring ≡ G.keys shard.old.ring }
    ensures told { D.tells shard.new.written.journal.disk ≡ D.tells shard.old.written.journal.disk }
    ensures served { IsServed shard.old.roster (G.keys shard.old.ring) shard.old.me
        (D.tells shard.old.written.journal.disk) number now (request_view request)
        (take result.before shard.new.written.diary) shard.new.written.diary result.outcome }
    ensures shard { result.shard ≡ number }
    ensures grows { IsPrefix shard.old.written.diary shard.new.written.diary }
    ensures before { (result.before ≡ length shard.old.written.diary)
        ⊎ ((result.before ≡ length shard.old.written.diary + 1) × (is_some shard.old.written.loose ≡ true)) }
    ensures after { result.after ≡ length shard.new.written.diary }
    ensures one { (result.after ≡ result.before) ⊎ (result.after ≡ result.before + 1) }
    ensures loose { is_some shard.new.written.loose ≡ true → (is_disk result.outcome.reply ≡ true)
        ⊎ ((is_some shard.old.written.loose ≡ true) × (result.before ≡ length shard.old.written.diary)) }
    ensures later { G.faults shard.old.ring ≤ G.faults shard.new.ring }
    ensures later_disk { D.faults shard.old.written.journal.disk ≤ D.faults shard.new.written.journal.disk }
    ensures failed { is_disk result.outcome.reply ≡ true
        → Rose (D.faults shard.old.written.journal.disk) (D.faults shard.new.written.journal.disk) }
    ensures unsigned { is_sign result.outcome.reply ≡ true → Rose (G.faults shard.old.ring) (G.faults shard.new.ring) }
{
    let found = shard.diary().len() as u64;
    match settle(alloc, shard) {
        Err(reply) => Served {
            outcome: Outcome {
                reply,
                messages: Items::new(alloc),
            },
            shard: number,
            before: found,
            after: found,
        },
        Ok(()) => {
            let before = shard.diary().len() as u64;
            let outcome = take(alloc, shard, now, request);
            let after = shard.diary().len() as u64;
            Served {
                outcome,
                shard: number,
                before,
                after,
            }
        }
    }
}

// Reads the journal again where an earlier call failed, and so keeps or drops the frame that it left loose. A reply
// comes where that fails, or where the shard has too many frames; then diary and loose frame are as they were.
fn settle<D: Disk, G: KeyRing>(alloc: Global, shard: &mut JournaledShard<D, G>) -> Result<(), Reply>
    ensures order { (number : ℕ) → IsInOrder D.tells G.keys D.seen D.may_leave number shard.old
        → IsInOrder D.tells G.keys D.seen D.may_leave number shard.new }
    ensures me { shard.new.me ≡ shard.old.me }
    ensures roster { shard.new.roster ≡ shard.old.roster }
    ensures told { D.tells shard.new.written.journal.disk ≡ D.tells shard.old.written.journal.disk }
    ensures found { OnOk result
        (IsKeptOrDropped shard.old.written.diary shard.old.written.loose shard.new.written.diary) }
    ensures read { OnOk result (IsRead shard.new.written) }
    ensures few { OnOk result (length shard.new.written.diary < 4294967294) }
    ensures diary { OnErr result (shard.new.written.diary ≡ shard.old.written.diary) }
    ensures loose { OnErr result (shard.new.written.loose ≡ shard.old.written.loose) }
    ensures reply { IfErr result IsOfReading }
    ensures undamaged { (place : ℕ) → D.tells shard.old.written.journal.disk ≡ true
        → IsErrOf result (replies.Damaged place) → ⊥ }
    ensures ring { shard.new.ring ≡ shard.old.ring }
    ensures later { D.faults shard.old.written.journal.disk ≤ D.faults shard.new.written.journal.disk }
    ensures failed { IsErrOf result replies.Disk
        → Rose (D.faults shard.old.written.journal.disk) (D.faults shard.new.written.journal.disk) }
{
    if shard.diary().len() >= FRAMES {
        return Err(Reply::NoMemory);
    }
    match shard.settle(alloc) {
        Ok(()) => Ok(()),
        Err(fault) => Err(reply_for(fault)),
    }
}

// Takes a request where the journal was read.
fn take<D: Disk, G: KeyRing>(
    alloc: Global,
    shard: &mut JournaledShard<D, G>,
    now: Moment,
    request: Request,
) -> Outcome
    requires may { MayBeServed now (request_view request) }
    requires read { IsRead shard.old.written }
    requires few { length shard.old.written.diary < 4294967294 }
    ensures order { (number : ℕ) → shard_of (request_view request) ≡ number
        → IsInOrder D.tells G.keys D.seen D.may_leave number shard.old
        → IsInOrder D.tells G.keys D.seen D.may_leave number shard.new }
    ensures me { shard.new.me ≡ shard.old.me }
    ensures roster { shard.new.roster ≡ shard.old.roster }
    ensures keys { G.keys shard.new.ring ≡ G.keys shard.old.ring }
    ensures told { D.tells shard.new.written.journal.disk ≡ D.tells shard.old.written.journal.disk }
    ensures served { (number : ℕ) → shard_of (request_view request) ≡ number
        → IsInOrder D.tells G.keys D.seen D.may_leave number shard.old
        → IsServed shard.old.roster (G.keys shard.old.ring) shard.old.me
        (D.tells shard.old.written.journal.disk) number now (request_view request) shard.old.written.diary
        shard.new.written.diary result }
    ensures grows { (added : Option Frame)
        × (shard.new.written.diary ≡ shard.old.written.diary ++ option_to_list added) }
    ensures loose { is_some shard.new.written.loose ≡ true → is_disk result.reply ≡ true }
    ensures later { G.faults shard.old.ring ≤ G.faults shard.new.ring }
    ensures later_disk { D.faults shard.old.written.journal.disk ≤ D.faults shard.new.written.journal.disk }
    ensures failed { is_disk result.reply ≡ true
        → Rose (D.faults shard.old.written.journal.disk) (D.faults shard.new.written.journal.disk) }
    ensures unsigned { is_sign result.reply ≡ true → Rose (G.faults shard.old.ring) (G.faults shard.new.ring) }
{
    steps_write_in_the_shard_of_their_request();
    let may = may_be_asked(shard, now, &request);
    if !may {
        unreachable!()
    }
    shard.take(alloc, now, request)
}

// Whether the request may be asked at the shard: where a command makes an entry, its attempt can be counted.
fn may_be_asked<D: Disk, G: KeyRing>(
    shard: &JournaledShard<D, G>,
    now: Moment,
    request: &Request,
) -> bool
    ensures asked { IsTrue result → MayBeServed now (request_view request.now)
        → MayBeAskedOf shard.now.written now (request_view request.now) }
    ensures few { length shard.now.written.diary < 4294967294 → IsTrue result }
{
    match request {
        Request::Command { party: _, command } => shard.has_attempts(command),
        Request::Start { .. }
        | Request::Put { .. }
        | Request::Finish { .. }
        | Request::StartReply { .. }
        | Request::FinishReply { .. }
        | Request::Resend { .. }
        | Request::Ask { .. } => true,
    }
}
