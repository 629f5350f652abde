//! References of envelopes.

/// The reference of an envelope: the 16 bytes of a UUID (RFC 9562).
#[derive(Clone, Copy, Debug, PartialEq, Eq, PartialOrd, Ord)]
pub struct Reference(pub [u8; 16]);
