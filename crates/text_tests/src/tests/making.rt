//! Values of literals, where `'` in texts of JSON stands for `"`, and tables that are gone through.
//!
//! A table is a text with a row in each line, `text | answer`, where the answer is what comes of the text. An empty
//! line is no row, nor is one that begins with `//`. In rows `*3*ab*` stands for `ababab`.
use canonical_json::{Json, ReadError, read};
use ebl_base::{ByteList, PlatformCode};
use std::alloc::{AllocError, Global};
use std::fmt::Debug;
use std::process::Abort;
use std::test::Fail;

pub(crate) fn code(rt: &impl Abort, text: &str) -> PlatformCode {
    PlatformCode::try_new(text.as_bytes()).expect(rt, "a platform code")
}

/// A text with quotes for its apostrophes.
pub(crate) fn quoted(alloc: Global, text: &str) -> Result<Vec<u8>, AllocError> {
    let mut bytes = Vec::new(alloc);
    for byte in text.bytes() {
        bytes.push(if byte == b'\'' { b'"' } else { byte })?;
    }
    Ok(bytes)
}

/// The value that a text is, with quotes for its apostrophes.
pub(crate) fn json(alloc: Global, text: &str) -> Result<Json, ReadError> {
    match quoted(alloc, text) {
        Ok(bytes) => read(alloc, &bytes),
        Err(_) => Err(ReadError::NoMemory),
    }
}

fn push_times(bytes: &mut Vec<u8>, part: &[u8], count: usize) -> Result<(), AllocError> {
    for _ in 0..count {
        bytes.extend_from_slice(part)?;
    }
    Ok(())
}

// The text for which a text of a table stands.
fn spelled(alloc: Global, text: &str) -> Result<Vec<u8>, Fail> {
    let mut bytes = Vec::new(alloc);
    let mut count = 1;
    for (i, part) in text.split('*').enumerate() {
        if i % 3 == 1 {
            count = part.parse()?;
        } else {
            push_times(&mut bytes, part.as_bytes(), count)?;
            count = 1;
        }
    }
    Ok(bytes)
}

/// What texts are tried by.
pub(crate) trait Form {
    /// What comes of a text: what is read or made of it, or why nothing is.
    fn answer(alloc: Global, text: &[u8]) -> Result<ByteList, Fail>;
}

/// The answer that is this value, as it is shown.
pub(crate) fn shown<T: Copy + Debug>(alloc: Global, value: T) -> Result<ByteList, Fail> {
    let text = format!(in alloc; "{value:?}")?;
    Ok(ByteList::from_slice(alloc, text.as_bytes())?)
}

/// Asserts that each text of the table has its answer.
pub(crate) fn assert_table<F: Form, R: Abort + AllocGlobal>(
    rt: &R,
    table: &str,
) -> Result<(), Fail> {
    for line in table.lines() {
        if !line.is_empty() && !line.starts_with("//") {
            assert_row::<F, R>(rt, line)?;
        }
    }
    Ok(())
}

fn assert_row<F: Form, R: Abort + AllocGlobal>(rt: &R, row: &str) -> Result<(), Fail> {
    let Some((text, wanted)) = row.split_once(" | ") else {
        panic!(rt; "a row without an answer: {row}");
    };
    let came = answer_of::<F>(rt.alloc(), text)?;
    assert_answer(rt, rt.alloc(), came.as_slice(), wanted, row)
}

fn answer_of<F: Form>(alloc: Global, text: &str) -> Result<ByteList, Fail> {
    let bytes = spelled(alloc, text)?;
    F::answer(alloc, &bytes)
}

fn assert_answer(
    rt: &impl Abort,
    alloc: Global,
    came: &[u8],
    wanted: &str,
    row: &str,
) -> Result<(), Fail> {
    let wanted = spelled(alloc, wanted)?;
    let text_came = std::str::from_utf8(came).unwrap_or("no text");
    assert!(rt; came == wanted.as_slice(), "{row}, and not {text_came}");
    Ok(())
}
