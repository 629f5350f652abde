//! A link in memory that fails at listed calls.
ghost use Rattle.std.specs.Prelude.{◌≡◌, ◌↔◌, ◌≤◌, [], min, length, drop, true, false, Some, Contains, IfOk, OnOk, OnErr, IsErr, is_err, if◌then◌else◌};
ghost use Rattle.std.specs.Io.{ReadsAtMost};
ghost use Rattle.std.specs.Io.KnownBytes.{Appends, ReadConsumes};
ghost use Rattle.ebl_base.specs.Calls.{after_call};
ghost use Rattle.ebl_base.specs.Faults.{HasCause};
ghost use Rattle.ebl_edge.specs.MemoryLink.{piece_room};
ghost use Rattle.ebl_edge.specs.Sink.{AppendsFirst};

use crate::infallible_source::InfallibleSource;
use crate::link::Link;
use crate::memory_sink::MemorySink;
use crate::sink::Sink;
use crate::source::Source;
use ebl_base::{ByteList, CallList, Copied, Failed, Items, NoMemory};
use std::alloc::Global;
use std::marker::Model;

/// The most bytes of a link's reads, in their order.
pub type PieceList = Items<usize>;

/// Bytes in memory in both directions. A call fails if it is listed, and a put also when it is out of memory.
///
/// Reads and puts are counted together, from 0. A read that fails hands out nothing.
#[derive(Debug, Drop)]
pub struct MemoryLink {
    source: InfallibleSource,
    pieces: PieceList,
    next_piece: usize,
    sink: MemorySink,
}

impl Model for MemoryLink {
    ghost use Rattle.std.specs.Prelude.{◌≤◌, length, drop};
    ghost use Rattle.ebl_edge.specs.MemoryLink.{LinkRecord};

    ghost Value = { LinkRecord };

    ghost view = { λ s. record { left = s.source; pieces = drop s.next_piece s.pieces; sink = s.sink } };

    ghost invariant = { λ s. s.next_piece ≤ length s.pieces };
}

impl MemoryLink {
    /// A link whose reads hand out these bytes, each as many as fit, and whose calls of these numbers fail. A put that
    /// fails writes nothing.
    pub fn new(alloc: Global, bytes: ByteList, fails: CallList) -> Self
        ensures left { result.left ≡ bytes }
        ensures pieces { result.pieces ≡ [] }
        ensures sink { result.sink ≡ record {
          written = [];
          tears = false;
          calls = record {
            fails = fails;
            number = 0;
            faults = 0;
          };
        } }
    {
        MemoryLink::over(bytes, PieceList::new(alloc), MemorySink::new(alloc, fails))
    }

    /// The same, except for the reads: each hands out at most as many bytes as its piece says, and at least one. After
    /// the last piece reads hand out as many as fit.
    pub fn in_pieces(alloc: Global, bytes: ByteList, pieces: PieceList, fails: CallList) -> Self
        ensures left { result.left ≡ bytes }
        ensures pieces { result.pieces ≡ pieces }
        ensures sink { result.sink ≡ record {
          written = [];
          tears = false;
          calls = record {
            fails = fails;
            number = 0;
            faults = 0;
          };
        } }
    {
        MemoryLink::over(bytes, pieces, MemorySink::new(alloc, fails))
    }

    /// The same as [`MemoryLink::in_pieces`], except that a put whose number is listed writes the first half of its
    /// piece, rounded down.
    pub fn tearing(alloc: Global, bytes: ByteList, pieces: PieceList, fails: CallList) -> Self
        ensures left { result.left ≡ bytes }
        ensures pieces { result.pieces ≡ pieces }
        ensures sink { result.sink ≡ record {
          written = [];
          tears = true;
          calls = record {
            fails = fails;
            number = 0;
            faults = 0;
          };
        } }
    {
        MemoryLink::over(bytes, pieces, MemorySink::tearing(alloc, fails))
    }

    fn over(bytes: ByteList, pieces: PieceList, sink: MemorySink) -> Self
        ensures { result ≡ record { left = bytes; pieces = pieces; sink = sink } }
    {
        MemoryLink {
            source: InfallibleSource::new(bytes),
            pieces,
            next_piece: 0,
            sink,
        }
    }

    /// The bytes that are left.
    pub fn left(&self) -> &[u8]
        ensures { result.now ≡ self.now.left }
    {
        self.source.left()
    }

    /// The bytes that were written.
    pub fn written(&self) -> &[u8]
        ensures { result.now ≡ self.now.sink.written }
    {
        self.sink.written()
    }

    /// How many calls failed.
    pub fn faults(&self) -> u64
        ensures { result ≡ self.now.sink.calls.faults }
    {
        self.sink.faults()
    }

    // The room that the next read has of this much.
    fn next_room(&mut self, room: usize) -> usize
        ensures room { result ≡ piece_room self.old.pieces room }
        ensures within { result ≤ room }
        ensures pieces { self.new.pieces ≡ drop 1 self.old.pieces }
        ensures left { self.new.left ≡ self.old.left }
        ensures sink { self.new.sink ≡ self.old.sink }
    {
        match self.pieces.as_slice().get(self.next_piece) {
            Some(most) => {
                self.next_piece += 1;
                (*most).max(1).min(room)
            }
            None => room,
        }
    }
}

impl Link for MemoryLink {
    ghost left = { λ s. Some s.left };

    ghost written = { λ s. Some s.sink.written };

    ghost faults = { λ s. s.sink.calls.faults };

    fn read(&mut self, into: &mut [u8]) -> Result<usize, Failed>
        ensures within { ReadsAtMost result into.new }
        ensures bytes { ReadConsumes (Some self.old.left) (Some self.new.left) result into.new }
        ensures written { Some self.new.sink.written ≡ Some self.old.sink.written }
        ensures cause { HasCause self.old.sink.calls.faults self.new.sink.calls.faults result }
        // As much as there is and as the piece and the room allow.
        ensures most { IfOk result (λ n. n ≡ min (length self.old.left) (piece_room self.old.pieces
            (length into.old))) }
        ensures listed { IsErr result ↔ Contains self.old.sink.calls.fails self.old.sink.calls.number }
        // A read that fails leaves its piece to the next one.
        ensures pieces { self.new.pieces ≡ (if is_err result then self.old.pieces else drop 1 self.old.pieces) }
        ensures tears { self.new.sink.tears ≡ self.old.sink.tears }
        ensures counted { self.new.sink.calls ≡ after_call (is_err result) self.old.sink.calls }
    {
        if self.sink.next_call_fails() {
            return Err(self.sink.fail());
        }
        let room = self.next_room(into.len());
        self.source.read(&mut into[..room])
    }

    fn put(&mut self, piece: &[u8]) -> Result<(), Failed>
        ensures ok { OnOk result (Appends (Some self.old.sink.written) (Some self.new.sink.written) piece.now) }
        ensures failed { OnErr result (AppendsFirst (Some self.old.sink.written)
            (Some self.new.sink.written) piece.now) }
        ensures left { Some self.new.left ≡ Some self.old.left }
        ensures cause { HasCause self.old.sink.calls.faults self.new.sink.calls.faults result }
        ensures listed { Contains self.old.sink.calls.fails self.old.sink.calls.number → IsErr result }
        ensures unlisted { OnErr result (¬ Contains self.old.sink.calls.fails self.old.sink.calls.number
            → self.new.sink.written ≡ self.old.sink.written) }
        ensures whole { OnErr result (self.old.sink.tears ≡ false → self.new.sink.written ≡ self.old.sink.written) }
        ensures pieces { self.new.pieces ≡ self.old.pieces }
        ensures tears { self.new.sink.tears ≡ self.old.sink.tears }
        ensures counted { self.new.sink.calls ≡ after_call (is_err result) self.old.sink.calls }
    {
        self.sink.put(piece)
    }
}

impl Copied for MemoryLink {
    fn copy(&self, alloc: Global) -> Result<Self, NoMemory> {
        let pieces = PieceList::from_slice(alloc, &self.pieces.as_slice()[self.next_piece..])?;
        Ok(MemoryLink {
            source: self.source.copy(alloc)?,
            pieces,
            next_piece: 0,
            sink: self.sink.copy(alloc)?,
        })
    }
}
