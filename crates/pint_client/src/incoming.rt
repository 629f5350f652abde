//! A reply that came.

use ebl_base::ByteList;

/// The reply to one request.
#[derive(Debug, Drop)]
pub struct Incoming {
    /// The status of three digits, 0 to 999.
    pub status: u16,
    /// The body, at most 4,194,304 bytes.
    pub body: ByteList,
}
