//! What is compared: a failure shows both values.
use canonical_json::{Json, ReadError, read, write};
use ebl_base::NoMemory;
use std::alloc::Global;
use std::fmt::Debug;
use std::process::Abort;
use std::test::Fail;

/// The value that a name stands for is the one that is expected.
pub(crate) fn same<T: Copy + Debug + PartialEq>(rt: &impl Abort, name: &str, seen: T, want: T) {
    assert_eq!(rt; seen, want, "{name}");
}

pub(crate) fn same_bytes(rt: &impl Abort, seen: &[u8], want: &[u8]) {
    assert_eq!(rt; seen, want);
}

/// The value is written as this text.
pub(crate) fn is_written(
    rt: &impl Abort,
    alloc: Global,
    json: &Json,
    want: &[u8],
) -> Result<(), NoMemory> {
    let text = write(alloc, json)?;
    same_bytes(rt, text.as_slice(), want);
    Ok(())
}

/// The text is read, and its value is written as this one.
pub(crate) fn is_rewritten(
    rt: &impl Abort,
    alloc: Global,
    text: &[u8],
    want: &[u8],
) -> Result<(), Fail> {
    let json = read(alloc, text)?;
    let written = is_written(rt, alloc, &json, want);
    drop(json);
    Ok(written?)
}

/// The text isn't read, for this cause.
pub(crate) fn is_refused(rt: &impl Abort, alloc: Global, text: &[u8], want: ReadError) {
    assert_eq!(rt; read(alloc, text).err(), Some(want), "{text:?}");
}
