//! Where a bill stands, by references to what is kept of it.
use ebl_base::{Chain, ChainLink, TransactionList};

/// Where a bill stands, as `bill_diary::BillPlace` says it, by references to what the register keeps.
#[derive(Clone, Copy)]
pub enum PlaceRef<'a> {
    /// The platform doesn't know the bill.
    Absent,
    /// The platform holds the bill.
    Held {
        /// The chain by which the bill came here; empty where it began here.
        known: &'a Chain,
        /// The transactions made here since.
        since: &'a TransactionList,
    },
    /// The platform has sent the bill to another one, which hasn't answered for good.
    Parting {
        known: &'a Chain,
        /// The entry that was sent.
        entry: &'a ChainLink,
    },
    /// Another platform has received the bill from this one.
    Gone {
        known: &'a Chain,
    },
}
