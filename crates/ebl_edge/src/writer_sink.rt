//! A writer of std as a sink.
ghost use Rattle.std.specs.Prelude.{◌≡◌};

use crate::sink::Sink;
use crate::std_calls::put_all;
use ebl_base::Failed;
use std::io::Write;
use std::marker::Model;

/// A writer of std as a sink. What was written is known if and only if the writer reports it; standard output doesn't.
///
/// Each error of the writer counts as a fault. A write that a signal interrupted is made again. Nothing waits in the
/// sink: a piece that was put has been handed to the writer, which was flushed.
#[derive(Drop)]
pub struct WriterSink<W> {
    writer: W,
    faults: u64,
}

impl<W> Model for WriterSink<W> {
    ghost use Rattle.ebl_edge.specs.Counted.{Counted};

    ghost Value = { Counted W };

    ghost view = { λ s. record { inner = s.writer; faults = s.faults } };
}

impl<W> WriterSink<W> {
    /// A sink over this writer.
    pub fn new(writer: W) -> Self
        ensures { result ≡ record { inner = writer; faults = 0 } }
    {
        WriterSink { writer, faults: 0 }
    }

    /// How many errors the writer answered.
    pub fn faults(&self) -> u64
        ensures { result ≡ self.now.faults }
    {
        self.faults
    }
}

impl<W: Write> Sink for WriterSink<W> {
    ghost written = { λ s. W.contents s.inner };

    ghost faults = { λ s. s.faults };

    fn put(&mut self, piece: &[u8]) -> Result<(), Failed> {
        put_all(&mut self.writer, &mut self.faults, piece)
    }
}
