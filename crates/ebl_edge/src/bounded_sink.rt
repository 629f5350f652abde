//! A sink of fixed capacity.
ghost use Rattle.std.specs.Prelude.{◌≡◌, ◌↔◌, ◌+◌, ◌≤◌, [], length, Some, IfOk, IsOk, OnOk, OnErr, is_err, if◌then◌else◌};
ghost use Rattle.std.specs.Io.KnownBytes.{Appends};
ghost use Rattle.ebl_base.specs.Faults.{HasCause, risen};
ghost use Rattle.ebl_edge.specs.Sink.{AppendsFirst};

use crate::sink::Sink;
use ebl_base::{ByteList, Copied, Failed, NoMemory, count_fault};
use std::alloc::Global;
use std::marker::Model;

/// A buffer of fixed, preallocated capacity: a call fails if and only if its piece goes past that capacity, and then
/// writes nothing.
///
/// It keeps nothing of a call except its bytes, so the number of calls has no limit.
#[derive(Debug, Drop)]
pub struct BoundedSink {
    bytes: Vec<u8>,
    room: usize,
    faults: u64,
}

impl Model for BoundedSink {
    ghost use Rattle.std.specs.Prelude.{◌≤◌, length, vec_capacity};
    ghost use Rattle.ebl_edge.specs.BoundedSink.{RoomRecord};

    ghost Value = { RoomRecord };

    ghost view = { λ s. record { written = s.bytes.items; room = s.room; faults = s.faults } };

    ghost invariant = { λ s. (length s.bytes.items ≤ s.room) × (s.room ≤ vec_capacity s.bytes) };
}

impl BoundedSink {
    /// An empty sink with room for this many bytes.
    pub fn new(alloc: Global, room: usize) -> Result<Self, NoMemory>
        ensures { IfOk result (λ sink. sink ≡ record { written = []; room = room; faults = 0 }) }
    {
        Ok(BoundedSink {
            bytes: Vec::with_capacity(alloc, room)?,
            room,
            faults: 0,
        })
    }

    /// The bytes that were written.
    pub fn written(&self) -> &[u8]
        ensures { result.now ≡ self.now.written }
    {
        self.bytes.as_slice()
    }

    /// The bytes that were written, as a list.
    pub fn into_bytes(self) -> ByteList
        ensures { result ≡ self.written }
    {
        ByteList::from_vec(self.bytes)
    }

    /// How many calls failed.
    pub fn faults(&self) -> u64
        ensures { result ≡ self.now.faults }
    {
        self.faults
    }
}

impl Sink for BoundedSink {
    ghost written = { λ s. Some s.written };

    ghost faults = { λ s. s.faults };

    fn put(&mut self, piece: &[u8]) -> Result<(), Failed>
        ensures ok { OnOk result (Appends (Some self.old.written) (Some self.new.written) piece.now) }
        ensures failed { OnErr result (AppendsFirst (Some self.old.written) (Some self.new.written) piece.now) }
        ensures cause { HasCause self.old.faults self.new.faults result }
        ensures fits { IsOk result ↔ (length self.old.written + length piece.now ≤ self.old.room) }
        ensures kept { OnErr result (self.new.written ≡ self.old.written) }
        ensures room { self.new.room ≡ self.old.room }
        ensures counted { self.new.faults ≡ (if is_err result then risen self.old.faults else self.old.faults) }
    {
        if piece.len() > self.room - self.bytes.len()
            || self.bytes.extend_from_slice(piece).is_err()
        {
            return Err(count_fault(&mut self.faults));
        }
        Ok(())
    }
}

impl Copied for BoundedSink {
    fn copy(&self, alloc: Global) -> Result<Self, NoMemory> {
        let mut bytes = Vec::with_capacity(alloc, self.room)?;
        bytes.extend_from_slice(&self.bytes)?;
        Ok(BoundedSink {
            bytes,
            room: self.room,
            faults: self.faults,
        })
    }
}
