//! A stream made of a reader and a writer.

use std::io;
use std::io::{Read, Write};

/// A stream that reads from one side and writes to the other.
#[derive(Drop)]
pub(crate) struct Duplex<R, W> {
    pub reader: R,
    pub writer: W,
}

impl<R: Read, W> Read for Duplex<R, W> {
    ghost remaining = { λ d. R.remaining d.reader };

    fn read(&mut self, buf: &mut [u8]) -> io::Result<usize> {
        self.reader.read(buf)
    }
}

impl<R, W: Write> Write for Duplex<R, W> {
    ghost contents = { λ d. W.contents d.writer };

    fn write(&mut self, buf: &[u8]) -> io::Result<usize> {
        self.writer.write(buf)
    }

    fn flush(&mut self) -> io::Result<()> {
        self.writer.flush()
    }
}
