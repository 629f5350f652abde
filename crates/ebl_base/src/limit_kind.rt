//! The limits that a command may pass.

/// Which limit a command would pass.
#[derive(Clone, Copy, Debug, PartialEq, Eq)]
pub enum LimitKind {
    /// 64 entries in a chain.
    Entries,
    /// 32 transactions in an entry.
    Transactions,
    /// 2,097,152 bytes in an additional document.
    DocumentSize,
    /// 16 additional documents of a bill.
    Documents,
    /// 4,194,304 bytes in the additional documents of a bill together.
    DocumentBytes,
}
