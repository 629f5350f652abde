//! A shard with its diary on a journal, as a machine.
ghost use Rattle.std.specs.Prelude.{◌≡◌};
ghost use Rattle.platform_world.specs.Journaled.{HoldsDiary, IsDiskOrDamaged, loose_mark};

use crate::machine::{Machine, Unread};
use bill_diary::Diary;
use bill_journal::OpenFault;
use disk_model::Disk;
use ebl_base::Moment;
use journaled_shard::{JournaledShard, Rack};
use platform_requests::{Outcome, Request};
use signed_envelope::KeyRing;
use std::alloc::Global;
use transfer_judge::legal_diary_is_sound;

impl<D: Disk + Drop, G: KeyRing + Drop> Machine for JournaledShard<D, G> {
    type Rack = Rack<D, G>;

    ghost seen = { λ s. record {
      me = s.me;
      roster = s.roster;
      keys = G.keys s.ring;
      diary = s.written.diary;
      loose = loose_mark s.written.unread s.written.loose;
    } };

    ghost tells = { λ s. D.tells s.written.journal.disk };

    ghost faults = { record {
      disk = λ s. D.faults s.written.journal.disk;
      ring = λ s. G.faults s.ring;
    } };

    ghost rack = { λ s. record { disk = s.written.journal.disk; ring = s.ring } };

    ghost holds = { λ r m. HoldsDiary D.seen D.may_leave r.disk m };

    fn settle(&mut self, alloc: Global) -> Result<bool, Unread> {
        let before = JournaledShard::diary(self).len();
        // For its clause `nothing_loose`.
        let _ = JournaledShard::is_unread(self);
        match JournaledShard::settle(self, alloc) {
            Ok(()) => Ok(before < JournaledShard::diary(self).len()),
            Err(fault) => Err(unread_for(fault)),
        }
    }

    fn take(&mut self, alloc: Global, now: Moment, request: Request) -> Outcome {
        legal_diary_is_sound();
        // For its clause `legal`.
        let _ = JournaledShard::diary(self);
        // For its clause `nothing_loose`.
        let _ = JournaledShard::is_unread(self);
        JournaledShard::take(self, alloc, now, request)
    }

    fn reopen(&mut self, alloc: Global) -> Result<bool, Unread> {
        let before = JournaledShard::diary(self).len();
        // For its clause `nothing_loose`.
        let _ = JournaledShard::is_unread(self);
        match JournaledShard::reopen(self, alloc) {
            Ok(()) => Ok(before < JournaledShard::diary(self).len()),
            Err(fault) => Err(unread_for(fault)),
        }
    }

    fn loosen(&mut self) {
        // For its clause `nothing_loose`.
        let _ = JournaledShard::is_unread(self);
        JournaledShard::loosen(self);
    }

    fn diary(&self) -> &Diary {
        JournaledShard::diary(self)
    }

    fn is_loose(&self) -> bool {
        JournaledShard::is_unread(self)
    }

    fn close(self) -> Rack<D, G> {
        let (disk, ring) = JournaledShard::close(self);
        Rack { disk, ring }
    }
}

// A disk that tells its content is never damaged.
fn unread_for(fault: OpenFault) -> Unread
    ensures disk { result ≡ Unread.Disk → IsDiskOrDamaged fault }
{
    match fault {
        OpenFault::NoMemory => Unread::NoMemory,
        OpenFault::Disk | OpenFault::Damaged(_) => Unread::Disk,
    }
}
