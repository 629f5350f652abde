//! One shard of a platform, whatever it keeps its diary on.
ghost use Rattle.std.specs.Prelude.{◌≡◌, ◌≤◌, Bool, None, Some, Option, true, is_some, IfOk, IsErrOf, OnErr};
ghost use Rattle.answer_lines.specs.Lines.{IsWritable};
ghost use Rattle.answer_lines.specs.declared.answer.Answer.TheVariants.{Replied};
ghost use Rattle.bill_diary.specs.declared.frame.Frame.{Frame};
ghost use Rattle.ebl_base.specs.Faults.{Rose};
ghost use Rattle.platform_machine.specs.Machine.{MayBeAsked};
ghost use Rattle.platform_requests.specs.Request.{request_view};
ghost use Rattle.platform_requests.specs.declared.reply.Reply.TheVariants as replies;
ghost use Rattle.platform_world.specs.Machine.{AreForListed, Counts, IsSameMachine, MachineRecord, end_by, shard_state};
ghost use Rattle.platform_world.specs.Shard.{EndsAs, IsResolved, loosened};

use bill_diary::Diary;
use ebl_base::Moment;
use platform_requests::{Outcome, Request};
use std::alloc::Global;

/// Why a loose shard couldn't be read again.
#[derive(Clone, Copy, Debug, PartialEq, Eq)]
pub enum Unread {
    /// The disk failed.
    Disk,
    /// Memory ran out.
    NoMemory,
}

/// One shard of a platform: it takes requests, each a step of the platform's machine over its diary.
pub trait Machine: Drop {
    /// What it was opened from, and gives back at its end.
    type Rack: Drop;

    /// Its platform, the roster, the keys of its ring, its diary, and what is loose.
    ghost seen: { Self → MachineRecord };

    /// Whether its disk tells its content.
    ghost tells: { Self → Bool };

    /// How often its disk failed, and how often its ring failed to sign.
    ghost faults: { Counts Self };

    /// What it gives back at its end.
    ghost rack: { Self → Self.Rack };

    /// The rack's disk reads as this machine's diary, with its loose frame or without, and so does whatever a crash
    /// leaves.
    ghost holds: { Self.Rack → MachineRecord → Type 0 };

    /// Reads a loose shard again, and finds out what is loose: whether a loose frame was kept. A shard that isn't loose
    /// stays as it is.
    fn settle(&mut self, alloc: Global) -> Result<bool, Unread>
        requires { tells self.old ≡ true }
        ensures found { IfOk result (λ kept. IsResolved (shard_state (seen self.old)) kept
            (shard_state (seen self.new))) }
        ensures was_loose { OnErr result ((mark : Option Frame) × ((seen self.old).loose ≡ Some mark)) }
        ensures err { OnErr result (seen self.new ≡ seen self.old) }
        ensures failed { IsErrOf result Unread.Disk → Rose (faults.disk self.old) (faults.disk self.new) }
        ensures same { IsSameMachine (seen self.old) (seen self.new) }
        ensures told { tells self.new ≡ tells self.old }
        ensures later_disk { faults.disk self.old ≤ faults.disk self.new }
        ensures later_ring { faults.ring self.old ≤ faults.ring self.new };

    /// A shard that isn't loose takes a request at a moment: one step of the machine, whose frame joins the diary.
    /// Where the disk fails, the step's frame is loose; after every other failure nothing changes. `Disk` and `Sign`
    /// come only where the disk and the ring failed. The messages are for platforms of the roster.
    fn take(&mut self, alloc: Global, now: Moment, request: Request) -> Outcome
        requires told { tells self.old ≡ true }
        requires read { (seen self.old).loose ≡ None }
        requires asked { MayBeAsked (seen self.old).diary now (request_view request) }
        ensures ends { EndsAs (seen self.old).roster (seen self.old).me (shard_state (seen self.old)) now
            (request_view request) (end_by result.reply) result (shard_state (seen self.new)) }
        ensures listed { AreForListed (seen self.old).roster result.messages }
        ensures writable { IsWritable (Replied result.reply) }
        ensures failed { result.reply ≡ replies.Disk → Rose (faults.disk self.old) (faults.disk self.new) }
        ensures sign { result.reply ≡ replies.Sign → Rose (faults.ring self.old) (faults.ring self.new) }
        ensures same { IsSameMachine (seen self.old) (seen self.new) }
        ensures told { tells self.new ≡ tells self.old }
        ensures later_disk { faults.disk self.old ≤ faults.disk self.new }
        ensures later_ring { faults.ring self.old ≤ faults.ring self.new };

    /// Forgets the diary, and reads the journal again: whether a loose frame was kept. After a fault the shard is
    /// loose.
    fn reopen(&mut self, alloc: Global) -> Result<bool, Unread>
        requires { tells self.old ≡ true }
        ensures found { IfOk result (λ kept. IsResolved (shard_state (seen self.old)) kept
            (shard_state (seen self.new))) }
        ensures loose { OnErr result (shard_state (seen self.new) ≡ loosened (shard_state (seen self.old))) }
        ensures failed { IsErrOf result Unread.Disk → Rose (faults.disk self.old) (faults.disk self.new) }
        ensures same { IsSameMachine (seen self.old) (seen self.new) }
        ensures told { tells self.new ≡ tells self.old }
        ensures later_disk { faults.disk self.old ≤ faults.disk self.new }
        ensures later_ring { faults.ring self.old ≤ faults.ring self.new };

    /// From now on the shard is loose.
    fn loosen(&mut self)
        ensures loose { shard_state (seen self.new) ≡ loosened (shard_state (seen self.old)) }
        ensures same { IsSameMachine (seen self.old) (seen self.new) }
        ensures told { tells self.new ≡ tells self.old }
        ensures later_disk { faults.disk self.old ≤ faults.disk self.new }
        ensures later_ring { faults.ring self.old ≤ faults.ring self.new };

    /// The diary, without a loose frame.
    fn diary(&self) -> &Diary
        ensures { result.now ≡ (seen self.now).diary };

    /// Whether the shard is loose.
    fn is_loose(&self) -> bool
        ensures { result ≡ is_some (seen self.now).loose };

    /// Gives back what the shard was opened from.
    fn close(self) -> Self::Rack
        ensures rack { result ≡ rack self }
        ensures holds { tells self ≡ true → holds result (seen self) };
}
