//! Entries of a chain.
use crate::checksum::Checksum;
use crate::items::Copied;
use crate::no_memory::NoMemory;
use crate::platform_code::PlatformCode;
use crate::transaction::TransactionList;
use std::alloc::Global;

/// What one platform adds to the chain of a bill: the transactions that were made there while it held the
/// bill, of which the last moves possession to another platform.
#[derive(Debug, Drop)]
pub struct Entry {
    /// The platform that signs the entry.
    pub platform: PlatformCode,
    /// The name of the bill.
    pub bill: Checksum,
    /// The name of the entry before it; none if it is the first.
    pub previous: Option<Checksum>,
    /// How often the platform has tried to part with the bill, this time included: from 1.
    pub attempt: u32,
    /// From 1 to 32 transactions in the order in which they were made.
    pub transactions: TransactionList,
}

impl Copied for Entry {
    fn copy(&self, alloc: Global) -> Result<Self, NoMemory> {
        let transactions = self.transactions.copy(alloc)?;
        Ok(Entry {
            platform: self.platform,
            bill: self.bill,
            previous: self.previous,
            attempt: self.attempt,
            transactions,
        })
    }
}
