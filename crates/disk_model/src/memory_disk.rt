//! A disk in memory that fails at listed calls.
ghost use Rattle.std.specs.Prelude.{◌≡◌, ◌↔◌, ◌⊎◌, ◌+◌, ◌≤◌, ◌++◌, [], ◌∷◌, true, length, take, drop, Contains, IfOk, OnOk, OnErr, IsErr, is_err};
ghost use Rattle.ebl_base.specs.Faults.{HasCause};
ghost use Rattle.ebl_base.specs.Calls.{after_call};
ghost use Rattle.disk_model.specs.Disk.{written, Torn, Follows, NoneNew, Only};
ghost use Rattle.disk_model.specs.Event.{write, synced, seen_after, MayLeave, LeftSince, EventsElapse};

use crate::disk::Disk;
use crate::log::DiskLog;
use ebl_base::{ByteList, CallList, Calls, Copied, Failed, NoMemory};
use std::alloc::Global;
use std::marker::Model;

/// Which calls of a disk in memory fail, by their numbers from 0: each `len`, `read`, `write_at` and `sync` is one.
#[derive(Debug, Drop)]
pub struct Failures {
    /// The calls that fail.
    pub calls: CallList,
    /// Those of them that are writes and write their bytes before they fail. Other failing writes leave theirs out.
    pub written: CallList,
}

/// A disk in memory that keeps each write and each sync, so that it is known what a crash may leave at any moment.
///
/// It fails at the listed calls, and when it is out of memory for a write or for its record.
#[derive(Debug, Drop)]
pub struct MemoryDisk {
    log: DiskLog,
    calls: Calls,
    done: CallList,
}

impl Model for MemoryDisk {
    ghost use Rattle.disk_model.specs.Record.{DiskRecord};

    ghost Value = { DiskRecord };

    ghost view = { λ s. record {
      start = s.log.start;
      seen = s.log.seen;
      events = s.log.events;
      calls = s.calls;
      done = s.done;
    } };
}

impl MemoryDisk {
    /// A disk with these bytes, all of them on it, of which the listed calls fail.
    pub fn new(alloc: Global, bytes: ByteList, failures: Failures) -> Result<Self, NoMemory>
        ensures bytes { IfOk result (λ disk. disk.seen ≡ bytes) }
        ensures start { IfOk result (λ disk. disk.start ≡ bytes) }
        ensures events { IfOk result (λ disk. disk.events ≡ []) }
        ensures calls { IfOk result (λ disk. disk.calls ≡ record { fails = failures.calls; number = 0; faults = 0 }) }
        ensures done { IfOk result (λ disk. disk.done ≡ failures.written) }
    {
        Ok(MemoryDisk {
            log: DiskLog::new(alloc, bytes)?,
            calls: Calls::new(failures.calls),
            done: failures.written,
        })
    }

    /// The bytes that a read gives.
    pub fn bytes(&self) -> &[u8]
        ensures bytes { result.now ≡ self.now.seen }
        ensures replayed { self.now.seen ≡ seen_after self.now.start self.now.events }
    {
        self.log.seen()
    }

    /// How many calls failed.
    pub fn faults(&self) -> u64
        ensures { result ≡ self.now.calls.faults }
    {
        self.calls.faults()
    }

    // A write at a listed call: the list says whether its bytes go in.
    fn fail_write(&mut self, number: u64, place: u64, bytes: &[u8])
        requires inside { place ≤ length self.old.seen }
        ensures start { self.new.start ≡ self.old.start }
        ensures out { ¬ Contains self.old.done number → self.new.events ≡ self.old.events }
        ensures in_or_out { (self.new.events ≡ self.old.events ++ write place bytes.now ∷ [])
            ⊎ (self.new.events ≡ self.old.events) }
        ensures torn { Torn place (length bytes.now) self.old.seen self.new.seen }
        ensures crash { Follows (Torn place (length bytes.now)) (MayLeave self.old.start self.old.events)
            (MayLeave self.new.start self.new.events) }
        ensures time { EventsElapse self.old.start self.old.events self.new.start self.new.events }
        ensures calls { self.new.calls ≡ self.old.calls }
        ensures done { self.new.done ≡ self.old.done }
    {
        if self.done.as_slice().contains(&number) {
            let _ = self.log.write(place as usize, bytes);
        }
    }
}

impl Disk for MemoryDisk {
    ghost tells = { λ _. true };

    ghost seen = { λ s. s.seen };

    ghost may_leave = { λ s. MayLeave s.start s.events };

    ghost moment = { λ s. length s.events };

    ghost left_since = { λ s. LeftSince s.start s.events };

    ghost faults = { λ s. s.calls.faults };

    fn len(&mut self) -> Result<u64, Failed>
        ensures length { IfOk result (λ n. n ≡ length self.old.seen) }
        ensures same { self.new ≡ record self.old { calls = after_call (is_err result) self.old.calls } }
        ensures crash { NoneNew (MayLeave self.old.start self.old.events) (MayLeave self.new.start self.new.events) }
        ensures time { EventsElapse self.old.start self.old.events self.new.start self.new.events }
        ensures cause { HasCause self.old.calls.faults self.new.calls.faults result }
        ensures listed { IsErr result ↔ Contains self.old.calls.fails self.old.calls.number }
    {
        if self.calls.next_fails() {
            return Err(self.calls.fail());
        }
        Ok(self.log.seen().len() as u64)
    }

    fn read(&mut self, place: u64, into: &mut [u8]) -> Result<(), Failed>
        requires inside { place + length into.old ≤ length self.old.seen }
        ensures bytes { OnOk result (into.new ≡ take (length into.old) (drop place self.old.seen)) }
        ensures same { self.new ≡ record self.old { calls = after_call (is_err result) self.old.calls } }
        ensures crash { NoneNew (MayLeave self.old.start self.old.events) (MayLeave self.new.start self.new.events) }
        ensures time { EventsElapse self.old.start self.old.events self.new.start self.new.events }
        ensures cause { HasCause self.old.calls.faults self.new.calls.faults result }
        ensures listed { IsErr result ↔ Contains self.old.calls.fails self.old.calls.number }
    {
        if self.calls.next_fails() {
            return Err(self.calls.fail());
        }
        let from = place as usize;
        into.copy_from_slice(&self.log.seen()[from..from + into.len()]);
        Ok(())
    }

    fn write_at(&mut self, place: u64, bytes: &[u8]) -> Result<(), Failed>
        requires inside { place ≤ length self.old.seen }
        ensures bytes { OnOk result (self.new.seen ≡ written self.old.seen place bytes.now) }
        ensures seen { Torn place (length bytes.now) self.old.seen self.new.seen }
        ensures crash { Follows (Torn place (length bytes.now)) (MayLeave self.old.start self.old.events)
            (MayLeave self.new.start self.new.events) }
        ensures time { EventsElapse self.old.start self.old.events self.new.start self.new.events }
        ensures cause { HasCause self.old.calls.faults self.new.calls.faults result }
        ensures start { self.new.start ≡ self.old.start }
        ensures noted { OnOk result (self.new.events ≡ self.old.events ++ write place bytes.now ∷ []) }
        ensures in_or_out { OnErr result ((self.new.events ≡ self.old.events ++ write place bytes.now ∷ [])
            ⊎ (self.new.events ≡ self.old.events)) }
        ensures left_out { OnErr result
            (¬ Contains self.old.done self.old.calls.number → self.new.events ≡ self.old.events) }
        ensures unlisted { OnErr result (¬ Contains self.old.calls.fails self.old.calls.number
            → self.new.events ≡ self.old.events) }
        ensures listed { Contains self.old.calls.fails self.old.calls.number → IsErr result }
        ensures counted { self.new.calls ≡ after_call (is_err result) self.old.calls }
        ensures done { self.new.done ≡ self.old.done }
    {
        let number = self.calls.number();
        if self.calls.next_fails() {
            self.fail_write(number, place, bytes);
            return Err(self.calls.fail());
        }
        match self.log.write(place as usize, bytes) {
            Ok(()) => Ok(()),
            Err(_) => Err(self.calls.fail()),
        }
    }

    fn sync(&mut self) -> Result<(), Failed>
        ensures durable { OnOk result (Only self.old.seen (MayLeave self.new.start self.new.events)) }
        ensures seen { self.new.seen ≡ self.old.seen }
        ensures crash { NoneNew (MayLeave self.old.start self.old.events) (MayLeave self.new.start self.new.events) }
        ensures time { EventsElapse self.old.start self.old.events self.new.start self.new.events }
        ensures cause { HasCause self.old.calls.faults self.new.calls.faults result }
        ensures start { self.new.start ≡ self.old.start }
        ensures noted { OnOk result (self.new.events ≡ self.old.events ++ synced ∷ []) }
        ensures left_out { OnErr result (self.new.events ≡ self.old.events) }
        ensures listed { Contains self.old.calls.fails self.old.calls.number → IsErr result }
        ensures counted { self.new.calls ≡ after_call (is_err result) self.old.calls }
        ensures done { self.new.done ≡ self.old.done }
    {
        if self.calls.next_fails() {
            return Err(self.calls.fail());
        }
        match self.log.sync() {
            Ok(()) => Ok(()),
            Err(_) => Err(self.calls.fail()),
        }
    }

    ghost use Rattle.disk_model.specs.Event as events;

    ghost counts_now = { λ s t c told le left. events.counts_now s.start s.events t c le left };

    ghost only_now = { λ s c told left. events.only_now s.start s.events c left };
}

impl Copied for MemoryDisk {
    fn copy(&self, alloc: Global) -> Result<Self, NoMemory> {
        Ok(MemoryDisk {
            log: self.log.copy(alloc)?,
            calls: self.calls.copy(alloc)?,
            done: self.done.copy(alloc)?,
        })
    }
}

impl Copied for Failures {
    fn copy(&self, alloc: Global) -> Result<Self, NoMemory> {
        Ok(Failures {
            calls: self.calls.copy(alloc)?,
            written: self.written.copy(alloc)?,
        })
    }
}
