//! A reader of std as a source.
ghost use Rattle.std.specs.Prelude.{◌≡◌};

use crate::source::Source;
use crate::std_calls::read_some;
use ebl_base::Failed;
use std::io::Read;
use std::marker::Model;

/// A reader of std as a source. What is left is known if and only if the reader reports it; standard input doesn't.
///
/// Each error of the reader counts as a fault. A read that a signal interrupted is made again.
#[derive(Drop)]
pub struct ReaderSource<R> {
    reader: R,
    faults: u64,
}

impl<R> Model for ReaderSource<R> {
    ghost use Rattle.ebl_edge.specs.Counted.{Counted};

    ghost Value = { Counted R };

    ghost view = { λ s. record { inner = s.reader; faults = s.faults } };
}

impl<R> ReaderSource<R> {
    /// A source over this reader.
    pub fn new(reader: R) -> Self
        ensures { result ≡ record { inner = reader; faults = 0 } }
    {
        ReaderSource { reader, faults: 0 }
    }

    /// How many errors the reader answered.
    pub fn faults(&self) -> u64
        ensures { result ≡ self.now.faults }
    {
        self.faults
    }
}

impl<R: Read> Source for ReaderSource<R> {
    ghost left = { λ s. R.remaining s.inner };

    ghost faults = { λ s. s.faults };

    fn read(&mut self, into: &mut [u8]) -> Result<usize, Failed> {
        read_some(&mut self.reader, &mut self.faults, into)
    }
}
