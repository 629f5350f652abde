//! A source in memory whose reads never fail.
ghost use Rattle.std.specs.Prelude.{◌≡◌, ◌<◌, [], ◌++◌, min, length, take, drop, Ok, Some};
ghost use Rattle.std.specs.Io.{ReadsAtMost};
ghost use Rattle.std.specs.Io.KnownBytes.{ReadConsumes};

use crate::source::Source;
use ebl_base::{ByteList, Copied, Failed, NoMemory};
use std::alloc::Global;
use std::marker::Model;

/// Bytes in memory that are read from their front by reads that never fail: the count of faults is the constant 0.
#[derive(Debug, Drop)]
pub struct InfallibleSource {
    bytes: ByteList,
    at: usize,
}

impl Model for InfallibleSource {
    ghost use Rattle.std.specs.Prelude.{◌≤◌, List, ℕ, length, drop};

    ghost Value = { List ℕ };

    ghost view = { λ s. drop s.at s.bytes };

    ghost invariant = { λ s. s.at ≤ length s.bytes };
}

impl InfallibleSource {
    /// A source of these bytes.
    pub fn new(bytes: ByteList) -> Self
        ensures { result ≡ bytes }
    {
        InfallibleSource { bytes, at: 0 }
    }

    /// The bytes that are left.
    pub fn left(&self) -> &[u8]
        ensures { result.now ≡ self.now }
    {
        &self.bytes.as_slice()[self.at..]
    }
}

impl Source for InfallibleSource {
    ghost left = { λ s. Some s };

    ghost faults = { λ _. 0 };

    fn read(&mut self, into: &mut [u8]) -> Result<usize, Failed>
        ensures within { ReadsAtMost result into.new }
        ensures bytes { ReadConsumes (Some self.old) (Some self.new) result into.new }
        // As much as there is and as fits.
        ensures most { result ≡ Ok (min (length self.old) (length into.old)) }
    {
        let count = hand_out(&self.bytes.as_slice()[self.at..], into);
        self.at += count;
        Ok(count)
    }
}

impl Copied for InfallibleSource {
    fn copy(&self, alloc: Global) -> Result<Self, NoMemory> {
        Ok(InfallibleSource::new(ByteList::from_slice(alloc, self.left())?))
    }
}

// Copies as many bytes as there are and as fit.
fn hand_out(bytes: &[u8], into: &mut [u8]) -> usize
    ensures count { result ≡ min (length bytes.now) (length into.old) }
    ensures moved { bytes.now ≡ take result into.new ++ drop result bytes.now }
    ensures end { result ≡ 0 → 0 < length into.new → bytes.now ≡ [] }
{
    let count = bytes.len().min(into.len());
    into[..count].copy_from_slice(&bytes[..count]);
    count
}
