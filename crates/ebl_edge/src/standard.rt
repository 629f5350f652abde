//! The standard streams as a source and a sink.
ghost use Rattle.std.specs.Prelude.{◌≡◌};

use crate::reader_source::ReaderSource;
use crate::writer_sink::WriterSink;
use std::io::{Input, Print, Printer, writer};

/// Standard input as a source; what is left of it isn't known. It is read straight into the caller's buffer, without a
/// buffer of its own.
pub fn standard_input<R: Input>(rt: &R) -> ReaderSource<R::Reader>
    ensures { result.faults ≡ 0 }
{
    ReaderSource::new(rt.reader())
}

/// Standard output as a sink; what was written isn't known. Each piece is written at once, with no buffer, so that none
/// is lost when the program ends: put whole lines.
pub fn standard_output<R: Print>(rt: &R) -> WriterSink<Printer<'_, R>>
    ensures { result.faults ≡ 0 }
{
    WriterSink::new(writer(rt))
}
