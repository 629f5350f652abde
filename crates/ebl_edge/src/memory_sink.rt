//! A sink in memory that fails at listed calls.
ghost use Rattle.std.specs.Prelude.{◌≡◌, ◌↔◌, ◌≤◌, [], true, false, Some, Contains, OnOk, OnErr, IsErr, IsTrue, is_err};
ghost use Rattle.std.specs.Io.KnownBytes.{Appends};
ghost use Rattle.ebl_base.specs.Faults.{HasCause, risen};
ghost use Rattle.ebl_edge.specs.Sink.{AppendsFirst};
ghost use Rattle.ebl_base.specs.Calls.{after_call};

use crate::sink::Sink;
use ebl_base::{ByteList, CallList, Calls, Copied, Failed, NoMemory};
use std::alloc::Global;
use std::marker::Model;

/// Bytes that are kept in memory as they are written. It fails at the listed calls, and when it is out of memory for a
/// piece.
#[derive(Debug, Drop)]
pub struct MemorySink {
    bytes: ByteList,
    tears: bool,
    calls: Calls,
}

impl Model for MemorySink {
    ghost use Rattle.ebl_edge.specs.MemorySink.{SinkRecord};

    ghost Value = { SinkRecord };

    ghost view = { λ s. record { written = s.bytes; tears = s.tears; calls = s.calls } };
}

impl MemorySink {
    /// An empty sink whose calls of these numbers fail and write nothing.
    pub fn new(alloc: Global, fails: CallList) -> Self
        ensures { result ≡ record {
          written = [];
          tears = false;
          calls = record {
            fails = fails;
            number = 0;
            faults =
                0;
          };
        } }
    {
        MemorySink {
            bytes: ByteList::new(alloc),
            tears: false,
            calls: Calls::new(fails),
        }
    }

    /// An empty sink whose calls of these numbers fail and write the first half of the piece, rounded down.
    pub fn tearing(alloc: Global, fails: CallList) -> Self
        ensures { result ≡ record {
          written = [];
          tears = true;
          calls = record {
            fails = fails;
            number = 0;
            faults = 0;
          };
        } }
    {
        MemorySink {
            bytes: ByteList::new(alloc),
            tears: true,
            calls: Calls::new(fails),
        }
    }

    /// The bytes that were written.
    pub fn written(&self) -> &[u8]
        ensures { result.now ≡ self.now.written }
    {
        self.bytes.as_slice()
    }

    /// The bytes that were written, as a list.
    pub fn into_bytes(self) -> ByteList
        ensures { result ≡ self.written }
    {
        self.bytes
    }

    /// How many calls failed.
    pub fn faults(&self) -> u64
        ensures { result ≡ self.now.calls.faults }
    {
        self.calls.faults()
    }
}

impl Sink for MemorySink {
    ghost written = { λ s. Some s.written };

    ghost faults = { λ s. s.calls.faults };

    fn put(&mut self, piece: &[u8]) -> Result<(), Failed>
        ensures ok { OnOk result (Appends (Some self.old.written) (Some self.new.written) piece.now) }
        ensures failed { OnErr result (AppendsFirst (Some self.old.written) (Some self.new.written) piece.now) }
        ensures cause { HasCause self.old.calls.faults self.new.calls.faults result }
        ensures listed { Contains self.old.calls.fails self.old.calls.number → IsErr result }
        ensures unlisted { OnErr result (¬ Contains self.old.calls.fails self.old.calls.number
            → self.new.written ≡ self.old.written) }
        ensures whole { OnErr result (self.old.tears ≡ false → self.new.written ≡ self.old.written) }
        ensures tears { self.new.tears ≡ self.old.tears }
        ensures counted { self.new.calls ≡ after_call (is_err result) self.old.calls }
    {
        if self.calls.next_fails() {
            self.tear(piece);
            return Err(self.calls.fail());
        }
        match self.bytes.extend_from_slice(piece) {
            Ok(()) => Ok(()),
            Err(_) => Err(self.calls.fail()),
        }
    }
}

impl MemorySink {
    // Counts a call of the link that the sink is part of, and answers whether it is to fail.
    pub(crate) fn next_call_fails(&mut self) -> bool
        ensures listed { IsTrue result ↔ Contains self.old.calls.fails self.old.calls.number }
        ensures counted { self.new ≡ record self.old {
          calls = record self.old.calls {
            number = risen
                self.old.calls.number;
          };
        } }
    {
        self.calls.next_fails()
    }

    // Counts a fault and answers it.
    pub(crate) fn fail(&mut self) -> Failed
        ensures counted { self.new ≡ record self.old {
          calls = record self.old.calls {
            faults = risen
                self.old.calls.faults;
          };
        } }
        ensures later { self.old.calls.faults ≤ self.new.calls.faults }
    {
        self.calls.fail()
    }

    // What a call that is to fail writes: nothing, or the first half if allocation succeeds.
    fn tear(&mut self, piece: &[u8])
        ensures first { AppendsFirst (Some self.old.written) (Some self.new.written) piece.now }
        ensures whole { self.old.tears ≡ false → self.new.written ≡ self.old.written }
        ensures tears { self.new.tears ≡ self.old.tears }
        ensures calls { self.new.calls ≡ self.old.calls }
    {
        if self.tears {
            let _ = self.bytes.extend_from_slice(&piece[..piece.len() / 2]);
        }
    }
}

impl Copied for MemorySink {
    fn copy(&self, alloc: Global) -> Result<Self, NoMemory> {
        Ok(MemorySink {
            bytes: self.bytes.copy(alloc)?,
            tears: self.tears,
            calls: self.calls.copy(alloc)?,
        })
    }
}
