//! A shard takes a request, whether it is loose or not.
ghost use Rattle.std.specs.Prelude.{◌≡◌, ◌+◌, ◌++◌, ◌<◌, ◌≤◌, Bool, [], true, vec_capacity, vec_len};
ghost use Rattle.answer_lines.specs.Lines.{IsWritable};
ghost use Rattle.answer_lines.specs.declared.answer.Answer.TheVariants.{Replied};
ghost use Rattle.ebl_base.specs.Faults.{RoseBy};
ghost use Rattle.journaled_shard.specs.Shard.{refusal_of};
ghost use Rattle.platform_machine.specs.Machine.{MayBeAsked};
ghost use Rattle.platform_requests.specs.Request.{request_view};
ghost use Rattle.platform_world.specs.Machine.{AreForListed, IsSameMachine, disk_times, end_by, end_of, reply_of, ring_times, shard_state};
ghost use Rattle.platform_world.specs.Shard.{IsResolved, TakesAs, kept_at};
ghost use Rattle.platform_world.specs.World.{ShardState};

use crate::fate::{Fate, FateEnd};
use crate::machine::{Machine, Unread};
use ebl_base::{Items, Moment};
use platform_requests::{Outcome, Reply, Request};
use std::alloc::Global;

/// What became of a request, and its outcome.
#[derive(Drop)]
pub struct ShardAnswer {
    pub fate: Fate,
    pub outcome: Outcome,
}

/// The shard of this number takes a request: it is read again first, where it is loose. `room` is for the number of the
/// shard, in the fate.
pub(crate) fn take_at<M: Machine>(
    alloc: Global,
    shard: u32,
    machine: &mut M,
    now: Moment,
    request: Request,
    room: Vec<u32>,
) -> ShardAnswer
    requires told { M.tells machine.old ≡ true }
    requires asked { (kept : Bool) (found : ShardState) → IsResolved (shard_state (M.seen machine.old)) kept found
        → MayBeAsked found.diary now (request_view request) }
    requires empty { room.items ≡ [] }
    requires room { 1 ≤ vec_capacity room }
    ensures taken { TakesAs (M.seen machine.old).roster (M.seen machine.old).me shard (shard_state (M.seen machine.old))
        now (request_view request) result.fate result.outcome (shard_state (M.seen machine.new)) }
    ensures listed { AreForListed (M.seen machine.old).roster result.outcome.messages }
    ensures writable { IsWritable (Replied result.outcome.reply) }
    ensures disk { RoseBy (M.faults.disk machine.old) (disk_times result.fate.end) (M.faults.disk machine.new) }
    ensures ring { RoseBy (M.faults.ring machine.old) (ring_times result.fate.end) (M.faults.ring machine.new) }
    ensures same { IsSameMachine (M.seen machine.old) (M.seen machine.new) }
    ensures told { M.tells machine.new ≡ true }
{
    match machine.settle(alloc) {
        Ok(kept) => {
            let outcome = machine.take(alloc, now, request);
            ShardAnswer {
                fate: Fate {
                    end: end_by(&outcome.reply),
                    kept: Items::from_vec(kept_at(kept, shard, room)),
                },
                outcome,
            }
        }
        Err(why) => unread(alloc, shard, why),
    }
}

// How a request ended that was replied to so.
fn end_by(reply: &Reply) -> FateEnd
    ensures { result ≡ end_by reply.now }
{
    match reply {
        Reply::Sign => FateEnd::SignFault,
        Reply::Disk => FateEnd::Failed,
        Reply::NoMemory => FateEnd::Short,
        _ => FateEnd::Whole,
    }
}

// The number of a shard, where its loose frame was kept.
fn kept_at(kept: bool, shard: u32, room: Vec<u32>) -> Vec<u32>
    requires empty { room.items ≡ [] }
    requires room { 1 ≤ vec_capacity room }
    ensures { result.items ≡ kept_at kept shard }
{
    let mut numbers = room;
    note(&mut numbers, kept, shard);
    numbers
}

/// Puts the number of a shard behind the others, where its loose frame was kept.
pub(crate) fn note(numbers: &mut Vec<u32>, kept: bool, shard: u32)
    requires { vec_len numbers.old < vec_capacity numbers.old }
    ensures items { numbers.new.items ≡ numbers.old.items ++ kept_at kept shard }
    ensures len { vec_len numbers.new ≤ vec_len numbers.old + 1 }
    ensures capacity { vec_capacity numbers.new ≡ vec_capacity numbers.old }
{
    if kept {
        numbers.push_reserved(shard);
    }
}

// The loose shard of this number couldn't be read again.
fn unread(alloc: Global, shard: u32, why: Unread) -> ShardAnswer
    ensures end { result.fate.end ≡ end_of shard why }
    ensures none_kept { result.fate.kept ≡ [] }
    ensures outcome { result.outcome ≡ refusal_of (reply_of why) }
{
    let (end, reply) = match why {
        Unread::Disk => (FateEnd::Stuck(shard), Reply::Disk),
        Unread::NoMemory => (FateEnd::Short, Reply::NoMemory),
    };
    ShardAnswer {
        fate: Fate {
            end,
            kept: Items::new(alloc),
        },
        outcome: Outcome {
            reply,
            messages: Items::new(alloc),
        },
    }
}
