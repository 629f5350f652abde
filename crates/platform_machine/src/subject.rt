//! What an answer is about.

use ebl_base::Checksum;

/// What an answer to another platform is about: a bill, and the last entry of the chain that was shown.
#[derive(Clone, Copy, Debug, PartialEq, Eq)]
pub struct Subject {
    /// The bill's name.
    pub bill: Checksum,
    /// The entry's name.
    pub last: Checksum,
}
