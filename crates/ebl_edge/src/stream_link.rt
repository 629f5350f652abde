//! A stream of std as a link.
ghost use Rattle.std.specs.Prelude.{◌≡◌, None};

use crate::link::Link;
use crate::std_calls::{put_all, read_some};
use ebl_base::Failed;
use std::io::{Read, Write};
use std::marker::Model;

/// A stream of std that is read and written, as a socket, as a link. Neither direction's bytes are known to contracts.
///
/// Each error of the stream counts as a fault. A call that a signal interrupted is made again. A piece that was put has
/// been handed to the stream, which was flushed.
#[derive(Drop)]
pub struct StreamLink<T> {
    stream: T,
    faults: u64,
}

impl<T> Model for StreamLink<T> {
    ghost use Rattle.ebl_edge.specs.Counted.{Counted};

    ghost Value = { Counted T };

    ghost view = { λ s. record { inner = s.stream; faults = s.faults } };
}

impl<T> StreamLink<T> {
    /// A link over this stream.
    pub fn new(stream: T) -> Self
        ensures { result ≡ record { inner = stream; faults = 0 } }
    {
        StreamLink { stream, faults: 0 }
    }

    /// How many errors the stream answered.
    pub fn faults(&self) -> u64
        ensures { result ≡ self.now.faults }
    {
        self.faults
    }
}

impl<T: Read + Write> Link for StreamLink<T> {
    ghost left = { λ _. None };

    ghost written = { λ _. None };

    ghost faults = { λ s. s.faults };

    fn read(&mut self, into: &mut [u8]) -> Result<usize, Failed> {
        read_some(&mut self.stream, &mut self.faults, into)
    }

    fn put(&mut self, piece: &[u8]) -> Result<(), Failed> {
        put_all(&mut self.stream, &mut self.faults, piece)
    }
}
