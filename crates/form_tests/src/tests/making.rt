//! Values of literals, and tables that are gone through.
//!
//! A table is a text with a row in each line, `text | answer`, where the answer is what comes of the text. An empty
//! line is no row, nor is one that begins with `//`. In rows `'` stands for `"`, `$` for the checksum of `{}`, `@` for
//! that of `abc`, `%` for a reference, and `*3*ab*` for `ababab`.
use canonical_json::{Json, read, write};
use ebl_base::{ByteList, Party, PlatformCode};
use std::alloc::{AllocError, Global};
use std::fmt::Debug;
use std::process::Abort;
use std::test::Fail;

// The checksums stand in FIPS 180-4's examples and in Python's hashlib.
const OBJECT: &[u8] = b"44136fa355b3678a1146ad16f7e8649e94fb4fc21fe77e8310c060f61caaff8a";

const ABC: &[u8] = b"ba7816bf8f01cfea414140de5dae2223b00361a396177a9cb410ff61f20015ad";

// The first byte is that of the first checksum, the others are bytes 1 to 15 of the second.
const REFERENCE: &[u8] = b"447816bf-8f01-cfea-4141-40de5dae2223";

const QUOTE: &[u8] = b"\"";

pub(crate) fn platform(text: &str) -> Result<PlatformCode, Fail> {
    Ok(PlatformCode::try_new(text.as_bytes()).ok_or("a platform")?)
}

pub(crate) fn party(text: &str) -> Result<Party, Fail> {
    Ok(Party::from_text(text.as_bytes()).ok_or("a party")?)
}

// What a byte of a row stands for, if not for itself.
fn text_for(byte: u8) -> Option<&'static [u8]> {
    match byte {
        b'\'' => Some(QUOTE),
        b'$' => Some(OBJECT),
        b'@' => Some(ABC),
        b'%' => Some(REFERENCE),
        _ => None,
    }
}

fn push_spelled(bytes: &mut Vec<u8>, byte: u8) -> Result<(), AllocError> {
    match text_for(byte) {
        Some(text) => bytes.extend_from_slice(text),
        None => Ok(bytes.push(byte)?),
    }
}

fn push_all(bytes: &mut Vec<u8>, part: &str) -> Result<(), AllocError> {
    for byte in part.bytes() {
        push_spelled(bytes, byte)?;
    }
    Ok(())
}

fn push_times(
    alloc: Global,
    bytes: &mut Vec<u8>,
    part: &str,
    count: usize,
) -> Result<(), AllocError> {
    let mut piece = Vec::new(alloc);
    push_all(&mut piece, part)?;
    for _ in 0..count {
        bytes.extend_from_slice(&piece)?;
    }
    Ok(())
}

/// The text for which a text of a table stands.
pub(crate) fn spelled(alloc: Global, text: &str) -> Result<Vec<u8>, Fail> {
    let mut bytes = Vec::new(alloc);
    let mut count = 1;
    for (i, part) in text.split('*').enumerate() {
        if i % 3 == 1 {
            count = part.parse()?;
        } else {
            push_times(alloc, &mut bytes, part, count)?;
            count = 1;
        }
    }
    Ok(bytes)
}

/// The value that such a text is.
pub(crate) fn json(alloc: Global, text: &str) -> Result<Json, Fail> {
    let bytes = spelled(alloc, text)?;
    Ok(read(alloc, &bytes)?)
}

/// Asserts that what has this name is what is wanted.
pub(crate) fn same<T: Copy + Debug + PartialEq>(rt: &impl Abort, name: &str, seen: T, wanted: T) {
    assert_eq!(rt; seen, wanted, "{name}");
}

/// A form that texts are read by.
pub(crate) trait Form {
    /// What comes of a text: what it is written as again, or why it isn't read.
    fn answer(alloc: Global, text: &[u8]) -> Result<ByteList, Fail>;
}

/// A form that values of JSON are read by.
pub(crate) trait JsonForm {
    /// Why a value isn't read.
    type Fault: Copy + Debug;

    /// What a value is written as again.
    fn again(alloc: Global, json: &Json) -> Result<Json, Self::Fault>;
}

/// A form of the texts of such values.
pub(crate) struct InJson<F>(F);

impl<F: JsonForm> Form for InJson<F> {
    fn answer(alloc: Global, text: &[u8]) -> Result<ByteList, Fail> {
        match read(alloc, text) {
            Ok(json) => answer_to::<F>(alloc, json),
            Err(fault) => refusal(alloc, fault),
        }
    }
}

fn answer_to<F: JsonForm>(alloc: Global, json: Json) -> Result<ByteList, Fail> {
    let again = F::again(alloc, &json);
    drop(json);
    match again {
        Ok(again) => text_of(alloc, again),
        Err(fault) => refusal(alloc, fault),
    }
}

/// The answer that is the text of this value.
pub(crate) fn text_of(alloc: Global, json: Json) -> Result<ByteList, Fail> {
    let text = write(alloc, &json);
    drop(json);
    Ok(text?)
}

/// The answer that a text isn't read, for this reason.
pub(crate) fn refusal<E: Copy + Debug>(alloc: Global, fault: E) -> Result<ByteList, Fail> {
    answer_made(alloc, format!(in alloc; "{fault:?}"))
}

/// The answer that is this text.
pub(crate) fn answer_text(alloc: Global, text: &[u8]) -> Result<ByteList, Fail> {
    Ok(ByteList::from_slice(alloc, text)?)
}

/// The answer that is this text, where it could be made.
pub(crate) fn answer_made(
    alloc: Global,
    text: Result<String, AllocError>,
) -> Result<ByteList, Fail> {
    let text = text?;
    answer_text(alloc, text.as_bytes())
}

/// Asserts that each text of the table has its answer.
pub(crate) fn assert_table<F: Form, R: Abort + AllocGlobal>(
    rt: &R,
    table: &str,
) -> Result<(), Fail> {
    for line in table.lines() {
        if !line.is_empty() && !line.starts_with("//") {
            assert_row::<F, R>(rt, line)?;
        }
    }
    Ok(())
}

fn assert_row<F: Form, R: Abort + AllocGlobal>(rt: &R, row: &str) -> Result<(), Fail> {
    let Some((text, wanted)) = row.split_once(" | ") else {
        panic!(rt; "a row without an answer: {row}");
    };
    let came = answer_of::<F>(rt.alloc(), text)?;
    assert_answer(rt, rt.alloc(), came.as_slice(), wanted, row)
}

fn answer_of<F: Form>(alloc: Global, text: &str) -> Result<ByteList, Fail> {
    let bytes = spelled(alloc, text)?;
    F::answer(alloc, &bytes)
}

fn assert_answer(
    rt: &impl Abort,
    alloc: Global,
    came: &[u8],
    wanted: &str,
    row: &str,
) -> Result<(), Fail> {
    let wanted = spelled(alloc, wanted)?;
    let shown = std::str::from_utf8(came).unwrap_or("no text");
    assert!(rt; came == wanted.as_slice(), "{row}, and not {shown}");
    Ok(())
}
