//! Why a request wasn't served, and why an office wasn't opened.
use ebl_base::NoMemory;
use platform_requests::Request;

/// Why a request wasn't served.
#[derive(Drop)]
pub enum TryFault {
    /// Another pass has the shard's turn. The request comes back.
    Busy(Request),
    /// Memory ran out before the shard was known.
    NoMemory,
}

/// Why an office wasn't opened.
#[derive(Clone, Copy, Debug, PartialEq, Eq)]
pub enum OfficeFault {
    /// The disk of this shard failed.
    OpenFault(usize),
    /// The disk of this shard is no journal of a legal diary of the shard's bills: this place shows it.
    Damaged(usize, u64),
    /// Memory ran out.
    NoMemory,
}
