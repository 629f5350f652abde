//! A disk in memory of fixed capacity.
ghost use Rattle.std.specs.Prelude.{◌≡◌, ◌↔◌, ◌+◌, ◌≤◌, ◌<◌, ◌++◌, [], ◌∷◌, true, length, take, drop, Ok, IfOk, IsOk, IsTrue, OnOk, OnErr, is_err, if◌then◌else◌};
ghost use Rattle.ebl_base.specs.Faults.{HasCause, risen};
ghost use Rattle.disk_model.specs.Disk.{written, Torn, Follows, NoneNew, Only};
ghost use Rattle.disk_model.specs.Event.{write, synced, bytes_written, seen_after, MayLeave, LeftSince, EventsElapse};

use crate::disk::Disk;
use crate::log::DiskLog;
use ebl_base::{Copied, Failed, NoMemory, count_fault};
use std::alloc::Global;
use std::marker::Model;

/// A disk in memory of fixed, preallocated capacity. A write or a sync fails if and only if it goes past that capacity,
/// and then does nothing.
///
/// It keeps each write and each sync, so that it is known what a crash may leave at any moment. Reads take no room.
#[derive(Debug, Drop)]
pub struct BoundedDisk {
    log: DiskLog,
    faults: u64,
}

impl Model for BoundedDisk {
    ghost use Rattle.std.specs.Prelude.{◌≡◌, []};
    ghost use Rattle.disk_model.specs.Record.{RoomRecord};

    ghost Value = { RoomRecord };

    ghost view = { λ s. record { log = s.log; faults = s.faults } };

    ghost invariant = { λ s. s.log.start ≡ [] };
}

impl BoundedDisk {
    /// A blank disk with room for writes of so many bytes together, and for so many writes and syncs.
    pub fn new(alloc: Global, bytes: usize, events: usize) -> Result<Self, NoMemory>
        ensures seen { IfOk result (λ disk. disk.log.seen ≡ []) }
        ensures start { IfOk result (λ disk. disk.log.start ≡ []) }
        ensures noted { IfOk result (λ disk. disk.log.events ≡ []) }
        ensures bytes { IfOk result (λ disk. disk.log.byte_room ≡ bytes) }
        ensures events { IfOk result (λ disk. disk.log.event_room ≡ events) }
        ensures faults { IfOk result (λ disk. disk.faults ≡ 0) }
    {
        Ok(BoundedDisk {
            log: DiskLog::with_room(alloc, bytes, events)?,
            faults: 0,
        })
    }

    /// The bytes that a read gives.
    pub fn bytes(&self) -> &[u8]
        ensures bytes { result.now ≡ self.now.log.seen }
        ensures replayed { self.now.log.seen ≡ seen_after self.now.log.start self.now.log.events }
    {
        self.log.seen()
    }

    /// How many calls failed.
    pub fn faults(&self) -> u64
        ensures { result ≡ self.now.faults }
    {
        self.faults
    }

    // Whether there is room for a write of so many bytes, or for a sync, which has none.
    fn has_room(&self, len: usize) -> bool
        ensures within { length self.now.log.seen ≤ bytes_written self.now.log.events }
        ensures room { IsTrue result ↔ ((bytes_written self.now.log.events + len ≤ self.now.log.byte_room)
            × (length self.now.log.events < self.now.log.event_room)) }
    {
        let (room, written) = (self.log.byte_room(), self.log.bytes_written());
        written <= room && len <= room - written && self.log.has_event_room()
    }
}

impl Disk for BoundedDisk {
    ghost tells = { λ _. true };

    ghost seen = { λ s. s.log.seen };

    ghost may_leave = { λ s. MayLeave s.log.start s.log.events };

    ghost moment = { λ s. length s.log.events };

    ghost left_since = { λ s. LeftSince s.log.start s.log.events };

    ghost faults = { λ s. s.faults };

    fn len(&mut self) -> Result<u64, Failed>
        ensures length { result ≡ Ok (length self.old.log.seen) }
        ensures same { self.new ≡ self.old }
        ensures crash { NoneNew (MayLeave self.old.log.start self.old.log.events)
            (MayLeave self.new.log.start self.new.log.events) }
        ensures time { EventsElapse self.old.log.start self.old.log.events self.new.log.start self.new.log.events }
    {
        Ok(self.log.seen().len() as u64)
    }

    fn read(&mut self, place: u64, into: &mut [u8]) -> Result<(), Failed>
        requires inside { place + length into.old ≤ length self.old.log.seen }
        ensures bytes { into.new ≡ take (length into.old) (drop place self.old.log.seen) }
        ensures ok { IsOk result }
        ensures same { self.new ≡ self.old }
        ensures crash { NoneNew (MayLeave self.old.log.start self.old.log.events)
            (MayLeave self.new.log.start self.new.log.events) }
        ensures time { EventsElapse self.old.log.start self.old.log.events self.new.log.start self.new.log.events }
    {
        let from = place as usize;
        into.copy_from_slice(&self.log.seen()[from..from + into.len()]);
        Ok(())
    }

    fn write_at(&mut self, place: u64, bytes: &[u8]) -> Result<(), Failed>
        requires inside { place ≤ length self.old.log.seen }
        ensures bytes { OnOk result (self.new.log.seen ≡ written self.old.log.seen place bytes.now) }
        ensures kept { OnErr result (self.new.log ≡ self.old.log) }
        ensures fits { IsOk result ↔ ((bytes_written self.old.log.events + length bytes.now ≤ self.old.log.byte_room)
            × (length self.old.log.events < self.old.log.event_room)) }
        ensures noted { OnOk result (self.new.log.events ≡ self.old.log.events ++ write place bytes.now ∷ []) }
        ensures seen { Torn place (length bytes.now) self.old.log.seen self.new.log.seen }
        ensures crash { Follows (Torn place (length bytes.now)) (MayLeave self.old.log.start self.old.log.events)
            (MayLeave self.new.log.start self.new.log.events) }
        ensures time { EventsElapse self.old.log.start self.old.log.events self.new.log.start self.new.log.events }
        ensures cause { HasCause self.old.faults self.new.faults result }
        ensures counted { self.new.faults ≡ (if is_err result then risen self.old.faults else self.old.faults) }
        ensures room { (self.new.log.byte_room ≡ self.old.log.byte_room)
            × (self.new.log.event_room ≡ self.old.log.event_room) }
    {
        if !self.has_room(bytes.len()) {
            return Err(count_fault(&mut self.faults));
        }
        match self.log.write(place as usize, bytes) {
            Ok(()) => Ok(()),
            Err(_) => unreachable!(),
        }
    }

    fn sync(&mut self) -> Result<(), Failed>
        ensures durable { OnOk result (Only self.old.log.seen (MayLeave self.new.log.start self.new.log.events)) }
        ensures kept { OnErr result (self.new.log ≡ self.old.log) }
        ensures fits { IsOk result ↔ (length self.old.log.events < self.old.log.event_room) }
        ensures noted { OnOk result (self.new.log.events ≡ self.old.log.events ++ synced ∷ []) }
        ensures seen { self.new.log.seen ≡ self.old.log.seen }
        ensures crash { NoneNew (MayLeave self.old.log.start self.old.log.events)
            (MayLeave self.new.log.start self.new.log.events) }
        ensures time { EventsElapse self.old.log.start self.old.log.events self.new.log.start self.new.log.events }
        ensures cause { HasCause self.old.faults self.new.faults result }
        ensures counted { self.new.faults ≡ (if is_err result then risen self.old.faults else self.old.faults) }
        ensures room { (self.new.log.byte_room ≡ self.old.log.byte_room)
            × (self.new.log.event_room ≡ self.old.log.event_room) }
    {
        if !self.log.has_event_room() {
            return Err(count_fault(&mut self.faults));
        }
        match self.log.sync() {
            Ok(()) => Ok(()),
            Err(_) => unreachable!(),
        }
    }

    ghost use Rattle.disk_model.specs.Event as events;

    ghost counts_now = { λ s t c told le left. events.counts_now s.log.start s.log.events t c le left };

    ghost only_now = { λ s c told left. events.only_now s.log.start s.log.events c left };
}

impl Copied for BoundedDisk {
    fn copy(&self, alloc: Global) -> Result<Self, NoMemory> {
        Ok(BoundedDisk {
            log: self.log.copy(alloc)?,
            faults: self.faults,
        })
    }
}
