//! The manifest of a bill's additional documents.
use crate::piece::PieceList;
use ebl_base::{Checksum, Copied, NoMemory};
use std::alloc::Global;

/// What a platform says of a bill that it sends: up to which entry, and with which additional documents.
#[derive(Debug, Drop)]
pub struct Manifest {
    /// The name of the bill.
    pub bill: Checksum,
    /// The name of the last entry of its chain.
    pub last: Checksum,
    /// At most 16 documents with distinct checksums, together of at most 4,194,304 bytes.
    pub documents: PieceList,
}

impl Copied for Manifest {
    fn copy(&self, alloc: Global) -> Result<Self, NoMemory> {
        let documents = self.documents.copy(alloc)?;
        Ok(Manifest {
            bill: self.bill,
            last: self.last,
            documents,
        })
    }
}
