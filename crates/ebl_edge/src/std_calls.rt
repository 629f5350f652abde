//! Calls of std's readers and writers, with their errors counted.
ghost use Rattle.std.specs.Prelude.{OnOk, OnErr};
ghost use Rattle.std.specs.Io.{ReadsAtMost, WritesAtMost};
ghost use Rattle.std.specs.Io.KnownBytes.{Appends, Keeps, ReadConsumes, WriteAppends};
ghost use Rattle.ebl_base.specs.Faults.{HasCause};
ghost use Rattle.ebl_edge.specs.Sink.{AppendsFirst};

use ebl_base::{Failed, count_fault};
use std::io::{ErrorKind, Read, Write};

/// One read of a reader. Each error counts as a fault; a read that a signal interrupted is made again.
pub(crate) fn read_some<R: Read>(
    reader: &mut R,
    faults: &mut u64,
    into: &mut [u8],
) -> Result<usize, Failed>
    ensures within { ReadsAtMost result into.new }
    ensures bytes { ReadConsumes (R.remaining reader.old) (R.remaining reader.new) result into.new }
    ensures cause { HasCause faults.old faults.new result }
{
    for _ in 0..u64::MAX {
        match reader.read(into) {
            Ok(count) => return Ok(count),
            Err(error) => {
                let failed = count_fault(faults);
                if error.kind() != ErrorKind::Interrupted {
                    return Err(failed);
                }
            }
        }
    }
    Err(count_fault(faults))
}

/// Writes a whole piece and flushes the writer, which may hold bytes back until then. Each error counts as a fault; a
/// write that a signal interrupted is made again.
pub(crate) fn put_all<W: Write>(
    writer: &mut W,
    faults: &mut u64,
    piece: &[u8],
) -> Result<(), Failed>
    ensures ok { OnOk result (Appends (W.contents writer.old) (W.contents writer.new) piece.now) }
    ensures failed { OnErr result (AppendsFirst (W.contents writer.old) (W.contents writer.new) piece.now) }
    ensures cause { HasCause faults.old faults.new result }
{
    let mut done = 0;
    for _ in 0..u64::MAX {
        if done == piece.len() {
            return flush(writer, faults);
        }
        done += write_some(writer, faults, &piece[done..])?;
    }
    Err(count_fault(faults))
}

// One write, which takes no byte if a signal interrupts it. A writer that takes none of some bytes has failed.
fn write_some<W: Write>(writer: &mut W, faults: &mut u64, piece: &[u8]) -> Result<usize, Failed>
    ensures within { WritesAtMost result piece.now }
    ensures bytes { WriteAppends (W.contents writer.old) (W.contents writer.new) result piece.now }
    ensures cause { HasCause faults.old faults.new result }
{
    match writer.write(piece) {
        Ok(0) => Err(count_fault(faults)),
        Ok(count) => Ok(count),
        Err(error) => {
            let failed = count_fault(faults);
            if error.kind() == ErrorKind::Interrupted {
                Ok(0)
            } else {
                Err(failed)
            }
        }
    }
}

fn flush<W: Write>(writer: &mut W, faults: &mut u64) -> Result<(), Failed>
    ensures kept { Keeps (W.contents writer.old) (W.contents writer.new) }
    ensures cause { HasCause faults.old faults.new result }
{
    match writer.flush() {
        Ok(()) => Ok(()),
        Err(_) => Err(count_fault(faults)),
    }
}
