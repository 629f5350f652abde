//! What a disk in memory keeps: the bytes at the start, those that a read gives now, and each write and sync between.
ghost use Rattle.std.specs.Prelude.{◌≡◌, ◌↔◌, ◌+◌, ◌≤◌, ◌<◌, ◌++◌, [], ◌∷◌, length, take, drop, vec_len, vec_capacity, IfOk, OnOk, OnErr, IsOk, IsTrue};
ghost use Rattle.disk_model.specs.Disk.{written, Torn, Follows, NoneNew, Only};
ghost use Rattle.disk_model.specs.Event.{write, synced, bytes_written, seen_after, MayLeave, EventsElapse};

use crate::mark::Mark;
use ebl_base::{ByteList, Copied, NoMemory};
use std::alloc::{AllocError, Global};
use std::marker::Model;

#[derive(Debug, Drop)]
pub(crate) struct DiskLog {
    start: ByteList,
    seen: Vec<u8>,
    marks: Vec<Mark>,
    // The bytes of all writes, one write behind the other.
    written: Vec<u8>,
    // For how many bytes of writes, and for how many events, there is preallocated room.
    byte_room: usize,
    event_room: usize,
}

impl Model for DiskLog {
    ghost use Rattle.std.specs.Prelude.{◌≤◌, vec_capacity};
    ghost use Rattle.disk_model.specs.Record.{LogRecord};
    ghost use Rattle.disk_model.specs.Log.{events_of, IsKept};

    ghost Value = { LogRecord };

    ghost view = { λ s. record {
      start = s.start;
      seen = s.seen.items;
      events = events_of s.marks.items s.written.items;
      byte_room = s.byte_room;
      event_room = s.event_room;
    } };

    ghost invariant = { λ s. IsKept s.start s.seen.items s.marks.items s.written.items
        × (s.byte_room ≤ vec_capacity s.seen) × (s.byte_room ≤ vec_capacity s.written)
        × (s.event_room ≤ vec_capacity s.marks) };
}

impl DiskLog {
    // A disk with these bytes, all of them on it.
    pub(crate) fn new(alloc: Global, start: ByteList) -> Result<Self, NoMemory>
        ensures start { IfOk result (λ log. log.start ≡ start) }
        ensures seen { IfOk result (λ log. log.seen ≡ start) }
        ensures events { IfOk result (λ log. log.events ≡ []) }
        ensures room { IfOk result (λ log. (log.byte_room ≡ 0) × (log.event_room ≡ 0)) }
    {
        let seen = Vec::from_slice(alloc, start.as_slice())?;
        Ok(DiskLog {
            start,
            seen,
            marks: Vec::new(alloc),
            written: Vec::new(alloc),
            byte_room: 0,
            event_room: 0,
        })
    }

    // A blank disk with room for so many bytes and events.
    pub(crate) fn with_room(alloc: Global, bytes: usize, events: usize) -> Result<Self, NoMemory>
        ensures start { IfOk result (λ log. log.start ≡ []) }
        ensures seen { IfOk result (λ log. log.seen ≡ []) }
        ensures events { IfOk result (λ log. log.events ≡ []) }
        ensures byte_room { IfOk result (λ log. log.byte_room ≡ bytes) }
        ensures event_room { IfOk result (λ log. log.event_room ≡ events) }
    {
        Ok(DiskLog {
            start: ByteList::new(alloc),
            seen: Vec::with_capacity(alloc, bytes)?,
            marks: Vec::with_capacity(alloc, events)?,
            written: Vec::with_capacity(alloc, bytes)?,
            byte_room: bytes,
            event_room: events,
        })
    }

    // The bytes that a read gives.
    pub(crate) fn seen(&self) -> &[u8]
        ensures bytes { result.now ≡ self.now.seen }
        ensures replayed { self.now.seen ≡ seen_after self.now.start self.now.events }
    {
        self.seen.as_slice()
    }

    // How many bytes were written.
    pub(crate) fn bytes_written(&self) -> usize
        ensures count { result ≡ bytes_written self.now.events }
        ensures within { length self.now.seen ≤ length self.now.start + bytes_written self.now.events }
    {
        self.written.len()
    }

    // For how many bytes of writes there is preallocated room.
    pub(crate) fn byte_room(&self) -> usize
        ensures { result ≡ self.now.byte_room }
    {
        self.byte_room
    }

    // Whether there is preallocated room for one event more.
    pub(crate) fn has_event_room(&self) -> bool
        ensures { IsTrue result ↔ (length self.now.events < self.now.event_room) }
    {
        self.marks.len() < self.event_room
    }

    // Writes a piece over the bytes from a place on, and past their end. Out of memory, nothing changes.
    pub(crate) fn write(&mut self, place: usize, piece: &[u8]) -> Result<(), NoMemory>
        requires inside { place ≤ length self.old.seen }
        ensures start { self.new.start ≡ self.old.start }
        ensures events { OnOk result (self.new.events ≡ self.old.events ++ write place piece.now ∷ []) }
        ensures seen { OnOk result (self.new.seen ≡ written self.old.seen place piece.now) }
        ensures same_events { OnErr result (self.new.events ≡ self.old.events) }
        ensures same_seen { OnErr result (self.new.seen ≡ self.old.seen) }
        ensures byte_room { self.new.byte_room ≡ self.old.byte_room }
        ensures event_room { self.new.event_room ≡ self.old.event_room }
        ensures fits { place + length piece.now ≤ self.old.byte_room
            → bytes_written self.old.events + length piece.now ≤ self.old.byte_room
            → length self.old.events < self.old.event_room → IsOk result }
        ensures torn { Torn place (length piece.now) self.old.seen self.new.seen }
        ensures crash { Follows (Torn place (length piece.now)) (MayLeave self.old.start self.old.events)
            (MayLeave self.new.start self.new.events) }
        ensures time { EventsElapse self.old.start self.old.events self.new.start self.new.events }
    {
        self.note_write(place, piece)
    }

    fn note_write(&mut self, place: usize, piece: &[u8]) -> Result<(), NoMemory>
        requires inside { place ≤ length self.old.seen }
        ensures start { self.new.start ≡ self.old.start }
        ensures events { OnOk result (self.new.events ≡ self.old.events ++ write place piece.now ∷ []) }
        ensures seen { OnOk result (self.new.seen ≡ written self.old.seen place piece.now) }
        ensures same_events { OnErr result (self.new.events ≡ self.old.events) }
        ensures same_seen { OnErr result (self.new.seen ≡ self.old.seen) }
        ensures byte_room { self.new.byte_room ≡ self.old.byte_room }
        ensures event_room { self.new.event_room ≡ self.old.event_room }
        ensures fits { place + length piece.now ≤ self.old.byte_room
            → bytes_written self.old.events + length piece.now ≤ self.old.byte_room
            → length self.old.events < self.old.event_room → IsOk result }
    {
        reserve_over(&mut self.seen, place, piece.len())?;
        self.written.reserve(piece.len())?;
        self.marks.push(Mark::Write(place, piece.len()))?;
        append(&mut self.written, piece);
        write_over(&mut self.seen, place, piece);
        Ok(())
    }

    // All that was written is on the disk. Out of memory, nothing changes.
    pub(crate) fn sync(&mut self) -> Result<(), NoMemory>
        ensures start { self.new.start ≡ self.old.start }
        ensures events { OnOk result (self.new.events ≡ self.old.events ++ synced ∷ []) }
        ensures seen { self.new.seen ≡ self.old.seen }
        ensures same_events { OnErr result (self.new.events ≡ self.old.events) }
        ensures byte_room { self.new.byte_room ≡ self.old.byte_room }
        ensures event_room { self.new.event_room ≡ self.old.event_room }
        ensures fits { length self.old.events < self.old.event_room → IsOk result }
        ensures durable { OnOk result (Only self.old.seen (MayLeave self.new.start self.new.events)) }
        ensures crash { NoneNew (MayLeave self.old.start self.old.events) (MayLeave self.new.start self.new.events) }
        ensures time { EventsElapse self.old.start self.old.events self.new.start self.new.events }
    {
        self.marks.push(Mark::Sync)?;
        Ok(())
    }
}

impl Copied for DiskLog {
    fn copy(&self, alloc: Global) -> Result<Self, NoMemory> {
        Ok(DiskLog {
            start: self.start.copy(alloc)?,
            seen: copy_with_room(alloc, &self.seen, self.byte_room)?,
            marks: copy_with_room(alloc, &self.marks, self.event_room)?,
            written: copy_with_room(alloc, &self.written, self.byte_room)?,
            byte_room: self.byte_room,
            event_room: self.event_room,
        })
    }
}

// The same items, with room for so many at least.
fn copy_with_room<T: Copy>(alloc: Global, items: &[T], room: usize) -> Result<Vec<T>, NoMemory>
    ensures items { IfOk result (λ copy. copy.items ≡ items.now) }
    ensures room { IfOk result (λ copy. room ≤ vec_capacity copy) }
{
    let mut copy = Vec::with_capacity(alloc, room)?;
    copy.extend_from_slice(items)?;
    Ok(copy)
}

// Makes room for a piece of this length over the bytes from a place on.
fn reserve_over(bytes: &mut Vec<u8>, place: usize, len: usize) -> Result<(), AllocError>
    requires inside { place ≤ vec_len bytes.old }
    ensures same { bytes.new.items ≡ bytes.old.items }
    ensures ok { OnOk result (place + len ≤ vec_capacity bytes.new) }
    ensures room { vec_capacity bytes.old ≤ vec_capacity bytes.new }
    ensures fits { place + len ≤ vec_capacity bytes.old → IsOk result }
{
    let inside = len.min(bytes.len() - place);
    bytes.reserve(len - inside)
}

// Puts a piece at the end, for which there is room.
fn append(bytes: &mut Vec<u8>, piece: &[u8])
    requires room { vec_len bytes.old + length piece.now ≤ vec_capacity bytes.old }
    ensures items { bytes.new.items ≡ bytes.old.items ++ piece.now }
    ensures room { vec_capacity bytes.old ≤ vec_capacity bytes.new }
{
    let _ = bytes.extend_from_slice(piece);
}

// Writes a piece, for which there is room, over the bytes from a place on, and past their end.
fn write_over(bytes: &mut Vec<u8>, place: usize, piece: &[u8])
    requires inside { place ≤ vec_len bytes.old }
    requires room { place + length piece.now ≤ vec_capacity bytes.old }
    ensures items { bytes.new.items ≡ written bytes.old.items place piece.now }
    ensures room { vec_capacity bytes.old ≤ vec_capacity bytes.new }
{
    let inside = piece.len().min(bytes.len() - place);
    append(bytes, &piece[inside..]);
    bytes[place..place + inside].copy_from_slice(&piece[..inside]);
}
