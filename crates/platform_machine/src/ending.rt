//! How a transfer ends.

/// How a transfer from here ends, by an answer of the platform to which it goes.
#[derive(Clone, Copy, Debug, PartialEq, Eq)]
pub enum Ending {
    /// The other platform has received the bill.
    Received,
    /// It has declined the entry for good.
    Declined,
}
