//! A source of equal bytes.
ghost use Rattle.std.specs.Prelude.{◌≡◌, replicate, Some};

use crate::source::Source;
use ebl_base::Failed;
use std::marker::Model;

/// A number of equal bytes that are made as they are read: it allocates nothing. Its reads never fail.
#[derive(Debug, Drop)]
pub struct RepeatedSource {
    byte: u8,
    count: u64,
}

impl Model for RepeatedSource {
    ghost use Rattle.std.specs.Prelude.{List, ℕ, replicate};

    ghost Value = { List ℕ };

    ghost view = { λ s. replicate s.count s.byte };
}

impl RepeatedSource {
    /// A source of `count` times this byte.
    pub fn new(byte: u8, count: u64) -> Self
        ensures { result ≡ replicate count byte }
    {
        RepeatedSource { byte, count }
    }
}

impl Source for RepeatedSource {
    ghost left = { λ s. Some s };

    ghost faults = { λ _. 0 };

    fn read(&mut self, into: &mut [u8]) -> Result<usize, Failed> {
        let count = self.count.min(into.len() as u64) as usize;
        into[..count].fill(self.byte);
        self.count -= count as u64;
        Ok(count)
    }
}
