//! A content that is ready for an append.
ghost use Rattle.std.specs.Prelude.{◌≡◌, ◌+◌, ◌≤◌, length, IfOk};
ghost use Rattle.bill_journal.specs.Frames.{framed, length_bytes};

use ebl_base::{ByteList, Copied, MAX_FRAME_CONTENT, NoMemory};
use std::alloc::Global;
use std::marker::Model;

/// A content that is ready for an append, which then allocates nothing. Contracts see the content.
///
/// It holds the bytes of the append's first write: the content's length, the content, and a shut gate.
#[derive(Debug, Drop)]
pub struct Framed {
    bytes: ByteList,
}

impl Model for Framed {
    ghost use Rattle.std.specs.Prelude.{List, ℕ};

    ghost Value = { List ℕ };

    ghost use Rattle.bill_journal.specs.Framed.{content, IsFramed};

    ghost view = { λ s. content s.bytes };

    ghost invariant = { λ s. IsFramed s.bytes };
}

impl Framed {
    /// The frame of a content of at most 16,777,216 bytes.
    pub fn new(alloc: Global, content: &[u8]) -> Result<Self, NoMemory>
        requires { length content.now ≤ MAX_FRAME_CONTENT }
        ensures { IfOk result (λ frame. frame ≡ content.now) }
    {
        let mut bytes = ByteList::from_slice(alloc, &bytes_of_length(content.len() as u32))?;
        bytes.extend_from_slice(content)?;
        bytes.push(0)?;
        Ok(Framed { bytes })
    }

    // The bytes of an append's first write.
    pub(crate) fn bytes(&self) -> &[u8]
        ensures bytes { result.now ≡ framed self.now }
        ensures length { length result.now ≡ 5 + length self.now }
        ensures short { length self.now ≤ MAX_FRAME_CONTENT }
    {
        self.bytes.as_slice()
    }
}

fn bytes_of_length(length: u32) -> [u8; 4]
    ensures { result ≡ length_bytes length }
{
    length.to_be_bytes()
}

impl Copied for Framed {
    fn copy(&self, alloc: Global) -> Result<Self, NoMemory> {
        Ok(Framed {
            bytes: self.bytes.copy(alloc)?,
        })
    }
}
