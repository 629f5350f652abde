//! The word `canon`: a value's canonical text and its checksum.
ghost use Rattle.std.specs.Prelude.{◌≡◌, ◌≤◌, IfOk};
ghost use Rattle.canonical_json.specs.View.{view};
ghost use Rattle.ebl_base.specs.Faults.{Rose};
ghost use Rattle.ebl_run.specs.Canon.{Canonizes, canonical_lines};
ghost use Rattle.ebl_run.specs.Status.{EndsAs, EndsAsLast, IsCanonEnd};

use crate::status::Status;
use canonical_json::{Json, ReadError, read, write};
use document_checksum::{checksum, to_text};
use ebl_base::{ByteList, NoMemory};
use ebl_edge::Sink;
use std::alloc::Global;

/// Writes the canonical text of the value that a text is (RFC 8785), and the text's SHA-256 checksum, each in a line.
///
/// `BadJson` if and only if the text has no such value; then nothing is written.
pub fn canon<K: Sink>(alloc: Global, text: &[u8], sink: &mut K) -> Status
    ensures ends { EndsAs result (Canonizes text.now) (K.written sink.old) (K.written sink.new) }
    ensures end { IsCanonEnd result }
    ensures write_fault { result ≡ Status.WriteFault → Rose (K.faults sink.old) (K.faults sink.new) }
    ensures later { K.faults sink.old ≤ K.faults sink.new }
{
    match read(alloc, text) {
        Ok(value) => put_value(alloc, &value, sink),
        Err(ReadError::NoMemory) => Status::NoMemory,
        Err(ReadError::NotJson) => Status::BadJson(ReadError::NotJson),
        Err(ReadError::Repeated) => Status::BadJson(ReadError::Repeated),
        Err(ReadError::Fraction) => Status::BadJson(ReadError::Fraction),
        Err(ReadError::Range) => Status::BadJson(ReadError::Range),
    }
}

fn put_value<K: Sink>(alloc: Global, value: &Json, sink: &mut K) -> Status
    ensures ends { EndsAsLast result (canonical_lines (view value.now)) (K.written sink.old) (K.written sink.new) }
    ensures write_fault { result ≡ Status.WriteFault → Rose (K.faults sink.old) (K.faults sink.new) }
    ensures later { K.faults sink.old ≤ K.faults sink.new }
{
    let lines = match canonical_lines(alloc, value) {
        Ok(lines) => lines,
        Err(NoMemory) => return Status::NoMemory,
    };
    match sink.put(lines.as_slice()) {
        Ok(()) => Status::Done,
        Err(_) => Status::WriteFault,
    }
}

fn canonical_lines(alloc: Global, value: &Json) -> Result<ByteList, NoMemory>
    ensures { IfOk result (λ lines. lines ≡ canonical_lines (view value.now)) }
{
    let mut lines = write(alloc, value)?;
    let name = to_text(checksum(lines.as_slice()));
    lines.push(b'\n')?;
    lines.extend_from_slice(&name)?;
    lines.push(b'\n')?;
    Ok(lines)
}
