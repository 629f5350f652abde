//! SHA-256 checksums.
use crate::items::Items;

/// The SHA-256 checksum of a text (FIPS 180-4), which is the text's name.
#[derive(Clone, Copy, Debug, PartialEq, Eq, PartialOrd, Ord)]
pub struct Checksum(pub [u8; 32]);

/// Checksums, in an order that whoever holds the list says.
pub type ChecksumList = Items<Checksum>;
