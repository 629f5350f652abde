//! A source in memory that fails at listed reads.
ghost use Rattle.std.specs.Prelude.{◌≡◌, ◌↔◌, min, length, Some, Contains, IfOk, IsErr, is_err};
ghost use Rattle.std.specs.Io.{ReadsAtMost};
ghost use Rattle.std.specs.Io.KnownBytes.{ReadConsumes};
ghost use Rattle.ebl_base.specs.Faults.{HasCause};
ghost use Rattle.ebl_base.specs.Calls.{after_call};

use crate::infallible_source::InfallibleSource;
use crate::source::Source;
use ebl_base::{ByteList, CallList, Calls, Copied, Failed, NoMemory};
use std::alloc::Global;
use std::marker::Model;

/// Bytes in memory that are read from their front. A read fails if and only if it is listed, and then hands out
/// nothing.
#[derive(Debug, Drop)]
pub struct MemorySource {
    bytes: InfallibleSource,
    calls: Calls,
}

impl Model for MemorySource {
    ghost use Rattle.ebl_edge.specs.MemorySource.{SourceRecord};

    ghost Value = { SourceRecord };

    ghost view = { λ s. record { left = s.bytes; calls = s.calls } };
}

impl MemorySource {
    /// A source of these bytes whose reads of these numbers fail.
    pub fn new(bytes: ByteList, fails: CallList) -> Self
        ensures left { result.left ≡ bytes }
        ensures calls { result.calls ≡ record { fails = fails; number = 0; faults = 0 } }
    {
        MemorySource {
            bytes: InfallibleSource::new(bytes),
            calls: Calls::new(fails),
        }
    }

    /// The bytes that are left.
    pub fn left(&self) -> &[u8]
        ensures { result.now ≡ self.now.left }
    {
        self.bytes.left()
    }

    /// How many reads failed.
    pub fn faults(&self) -> u64
        ensures { result ≡ self.now.calls.faults }
    {
        self.calls.faults()
    }
}

impl Source for MemorySource {
    ghost left = { λ s. Some s.left };

    ghost faults = { λ s. s.calls.faults };

    fn read(&mut self, into: &mut [u8]) -> Result<usize, Failed>
        ensures within { ReadsAtMost result into.new }
        ensures bytes { ReadConsumes (Some self.old.left) (Some self.new.left) result into.new }
        ensures cause { HasCause self.old.calls.faults self.new.calls.faults result }
        // As much as there is and as fits.
        ensures most { IfOk result (λ n. n ≡ min (length self.old.left) (length into.old)) }
        ensures listed { IsErr result ↔ Contains self.old.calls.fails self.old.calls.number }
        ensures counted { self.new.calls ≡ after_call (is_err result) self.old.calls }
    {
        if self.calls.next_fails() {
            return Err(self.calls.fail());
        }
        self.bytes.read(into)
    }
}

impl Copied for MemorySource {
    fn copy(&self, alloc: Global) -> Result<Self, NoMemory> {
        Ok(MemorySource {
            bytes: self.bytes.copy(alloc)?,
            calls: self.calls.copy(alloc)?,
        })
    }
}
