//! Why a body is turned away.

use ebl_base::{Checksum, Reason};

/// Why a body is turned away before any diary is looked at, with what was read of it.
#[derive(Clone, Copy, Debug, PartialEq, Eq)]
pub struct Refusal {
    pub reason: Reason,
    /// The bill of the document, if a document was read.
    pub bill: Option<Checksum>,
    /// The name of the chain's last text, if the body is well-formed and there is a text.
    pub last: Option<Checksum>,
}
