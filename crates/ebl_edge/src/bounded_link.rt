//! A link in memory whose writes have a fixed capacity.
ghost use Rattle.std.specs.Prelude.{◌≡◌, ◌↔◌, ◌+◌, ◌≤◌, [], min, length, Ok, Some, IfOk, IsOk, OnOk, OnErr, is_err, if◌then◌else◌};
ghost use Rattle.std.specs.Io.{ReadsAtMost};
ghost use Rattle.std.specs.Io.KnownBytes.{Appends, ReadConsumes};
ghost use Rattle.ebl_base.specs.Faults.{HasCause, risen};
ghost use Rattle.ebl_edge.specs.Sink.{AppendsFirst};

use crate::bounded_sink::BoundedSink;
use crate::infallible_source::InfallibleSource;
use crate::link::Link;
use crate::sink::Sink;
use crate::source::Source;
use ebl_base::{ByteList, Copied, Failed, NoMemory};
use std::alloc::Global;
use std::marker::Model;

/// Bytes in memory in both directions, with a fixed, preallocated capacity for what is written. Reads never fail; a put
/// fails if and only if its piece goes past that capacity, and then writes nothing.
///
/// It keeps nothing of a call except its bytes, so the number of calls has no limit.
#[derive(Debug, Drop)]
pub struct BoundedLink {
    source: InfallibleSource,
    sink: BoundedSink,
}

impl Model for BoundedLink {
    ghost use Rattle.ebl_edge.specs.MemoryLink.{BoundedLinkRecord};

    ghost Value = { BoundedLinkRecord };

    ghost view = { λ s. record { left = s.source; sink = s.sink } };
}

impl BoundedLink {
    /// A link whose reads hand out these bytes, with room for so many bytes to write.
    pub fn new(alloc: Global, bytes: ByteList, room: usize) -> Result<Self, NoMemory>
        ensures left { IfOk result (λ link. link.left ≡ bytes) }
        ensures sink { IfOk result (λ link. link.sink ≡ record { written = []; room = room; faults = 0 }) }
    {
        Ok(BoundedLink {
            source: InfallibleSource::new(bytes),
            sink: BoundedSink::new(alloc, room)?,
        })
    }

    /// The bytes that are left.
    pub fn left(&self) -> &[u8]
        ensures { result.now ≡ self.now.left }
    {
        self.source.left()
    }

    /// The bytes that were written.
    pub fn written(&self) -> &[u8]
        ensures { result.now ≡ self.now.sink.written }
    {
        self.sink.written()
    }

    /// How many calls failed.
    pub fn faults(&self) -> u64
        ensures { result ≡ self.now.sink.faults }
    {
        self.sink.faults()
    }
}

impl Link for BoundedLink {
    ghost left = { λ s. Some s.left };

    ghost written = { λ s. Some s.sink.written };

    ghost faults = { λ s. s.sink.faults };

    fn read(&mut self, into: &mut [u8]) -> Result<usize, Failed>
        ensures within { ReadsAtMost result into.new }
        ensures bytes { ReadConsumes (Some self.old.left) (Some self.new.left) result into.new }
        ensures written { Some self.new.sink.written ≡ Some self.old.sink.written }
        ensures cause { HasCause self.old.sink.faults self.new.sink.faults result }
        // As much as there is and as fits.
        ensures most { result ≡ Ok (min (length self.old.left) (length into.old)) }
        ensures sink { self.new.sink ≡ self.old.sink }
    {
        self.source.read(into)
    }

    fn put(&mut self, piece: &[u8]) -> Result<(), Failed>
        ensures ok { OnOk result (Appends (Some self.old.sink.written) (Some self.new.sink.written) piece.now) }
        ensures failed { OnErr result (AppendsFirst (Some self.old.sink.written)
            (Some self.new.sink.written) piece.now) }
        ensures left { Some self.new.left ≡ Some self.old.left }
        ensures cause { HasCause self.old.sink.faults self.new.sink.faults result }
        ensures fits { IsOk result ↔ (length self.old.sink.written + length piece.now ≤ self.old.sink.room) }
        ensures kept { OnErr result (self.new.sink.written ≡ self.old.sink.written) }
        ensures room { self.new.sink.room ≡ self.old.sink.room }
        ensures counted { self.new.sink.faults ≡
            (if is_err result then risen self.old.sink.faults else self.old.sink.faults) }
    {
        self.sink.put(piece)
    }
}

impl Copied for BoundedLink {
    fn copy(&self, alloc: Global) -> Result<Self, NoMemory> {
        Ok(BoundedLink {
            source: self.source.copy(alloc)?,
            sink: self.sink.copy(alloc)?,
        })
    }
}
