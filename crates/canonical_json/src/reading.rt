//! The value that a text of JSON is.
ghost use Rattle.std.specs.Prelude.{◌≤◌, IfOk, IfErr, IfSome, MatchOption};
ghost use Rattle.canonical_json.specs.Value.{depth};
ghost use Rattle.canonical_json.specs.View.{view};
ghost use Rattle.canonical_json.specs.Lawful.{IsLawful, HasTexts};
ghost use Rattle.canonical_json.specs.Reading.{Reads, IsFault, IsUnread};

use crate::descent::next_value;
use crate::fault::ReadError;
use crate::faults::Faults;
use crate::value::Json;
use ebl_base::NoMemory;
use json::{Reader, Scratch};
use std::alloc::Global;

// How deep lists and objects may nest.
const DEEPEST: usize = 127;

/// The value that a text is. White space may stand around it, and members may stand in any order.
///
/// NotJson if it is no text of JSON (RFC 8259) in UTF-8, nested at most 127 deep and without lone
/// surrogates; else Repeated if some object has a name twice; else Fraction if some number has an
/// exponent, or is neither whole nor a decimal; else Range if some whole number is past 2^53 - 1 in
/// size. It is linear, except for the sorting of an object whose names aren't in order.
pub fn read(alloc: Global, bytes: &[u8]) -> Result<Json, ReadError>
    ensures ok { IfOk result (λ json. Reads bytes.now (view json)) }
    ensures lawful { IfOk result (λ json. IsLawful (view json)) }
    ensures texts { IfOk result (λ json. HasTexts (view json)) }
    ensures nests { IfOk result (λ json. depth (view json) ≤ 127) }
    ensures err { IfErr result (λ e. IsFault bytes.now e) }
{
    match simdutf8::compat::from_utf8(bytes) {
        Ok(text) => read_text(alloc, text),
        Err(_) => Err(ReadError::NotJson),
    }
}

/// The value that a text is, or none where `read` refuses it for its form.
pub fn read_if_any(alloc: Global, bytes: &[u8]) -> Result<Option<Json>, NoMemory>
    ensures value { IfOk result (λ any. MatchOption any
        (IsUnread bytes.now) (λ json. Reads bytes.now (view json))) }
    ensures lawful { IfOk result (λ any. IfSome any (λ json. IsLawful (view json))) }
    ensures texts { IfOk result (λ any. IfSome any (λ json. HasTexts (view json))) }
    ensures nests { IfOk result (λ any. IfSome any (λ json. depth (view json) ≤ 127)) }
{
    match read(alloc, bytes) {
        Ok(json) => Ok(Some(json)),
        Err(ReadError::NoMemory) => Err(NoMemory),
        Err(_) => Ok(None),
    }
}

fn read_text(alloc: Global, text: &str) -> Result<Json, ReadError>
    ensures ok { IfOk result (λ json. Reads text.now (view json)) }
    ensures lawful { IfOk result (λ json. IsLawful (view json)) }
    ensures texts { IfOk result (λ json. HasTexts (view json)) }
    ensures nests { IfOk result (λ json. depth (view json) ≤ 127) }
    ensures err { IfErr result (λ e. IsFault text.now e) }
{
    let mut scratch = Scratch::new(alloc);
    let Ok(mut reader) = Reader::new(text, &mut scratch) else {
        return Err(ReadError::NoMemory);
    };
    let mut faults = Faults::none();
    let json = next_value(alloc, &mut reader, DEEPEST, &mut faults)?;
    if reader.next().is_some() {
        return Err(ReadError::NotJson);
    }
    match faults.first() {
        Some(fault) => Err(fault),
        None => Ok(json),
    }
}
