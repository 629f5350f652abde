//! Bytes, links in memory, the cells of a row, and names.
use ebl_base::{ByteList, CallList, Checksum, NoMemory, Reference};
use ebl_edge::{MemoryLink, PieceList};
use std::alloc::Global;
use std::fmt::Debug;
use std::process::Abort;

/// 11111111-1111-1111-1111-111111111111.
pub(crate) const REFERENCE: Reference = Reference([0x11; 16]);

/// Sixty-four times the digit 4.
pub(crate) const CHECKSUM: Checksum = Checksum([0x44; 32]);

pub(crate) fn joined(alloc: Global, parts: &[&[u8]]) -> Result<Vec<u8>, NoMemory> {
    let mut text = Vec::new(alloc);
    for part in parts {
        text.extend_from_slice(part)?;
    }
    Ok(text)
}

/// A head of so many bytes, which states this length of the body.
pub(crate) fn head_of(alloc: Global, length: &[u8], size: usize) -> Result<Vec<u8>, NoMemory> {
    let start = b"POST /v3/envelopes HTTP/1.1\r\ncontent-length: ";
    let mut head = joined(alloc, &[start, length, b"\r\na:"])?;
    for _ in head.len()..size.saturating_sub(4) {
        head.push(b'x')?;
    }
    head.extend_from_slice(b"\r\n\r\n")?;
    Ok(head)
}

/// Pieces of which the last byte of a head of 16,384 bytes comes alone, with what stands behind it.
pub(crate) const ONE_LAST: &[usize] = &[4095, 4096, 4096, 4096];

/// A link that hands out these bytes in pieces of these sizes, and fails at these calls.
pub(crate) fn link_of(
    alloc: Global,
    input: &[u8],
    pieces: &[usize],
    fails: &[u64],
) -> Result<MemoryLink, NoMemory> {
    let bytes = ByteList::from_slice(alloc, input)?;
    let pieces = PieceList::from_slice(alloc, pieces)?;
    let fails = CallList::from_slice(alloc, fails)?;
    Ok(MemoryLink::in_pieces(alloc, bytes, pieces, fails))
}

/// The value is the one that is expected. A message names the row.
pub(crate) fn same<R: Abort, N: Debug, T: Copy + Debug + PartialEq>(
    rt: &R,
    row: &N,
    seen: T,
    want: T,
) {
    assert_eq!(rt; seen, want, "{row:?}");
}

/// What stands in front of a row's first bar, and what behind it. The rows of a text end with `~`.
pub(crate) fn cells<'a, R: Abort>(rt: &R, row: &'a str) -> (&'a str, &'a str) {
    match row.split_once('|') {
        Some(cells) => cells,
        None => panic!(rt; "no bar in {row:?}"),
    }
}
