//! What is compared, under the row that it belongs to: a failure shows both values.
use std::fmt::{Debug, Display};
use std::process::Abort;

/// The value is the one that is expected. A message names what it is a value of.
pub(crate) fn same<T: Copy + Debug + PartialEq>(
    rt: &impl Abort,
    name: &impl Display,
    seen: T,
    want: T,
) {
    assert_eq!(rt; seen, want, "{name}");
}

/// The same of a row that is named by a value.
pub(crate) fn same_at<T: Copy + Debug + PartialEq>(
    rt: &impl Abort,
    row: &impl Debug,
    seen: T,
    want: T,
) {
    assert_eq!(rt; seen, want, "{row:?}");
}

pub(crate) fn same_bytes(rt: &impl Abort, seen: &[u8], want: &[u8]) {
    assert_eq!(rt; seen, want);
}
