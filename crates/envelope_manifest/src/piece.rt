//! A document that a manifest lists.
use ebl_base::{CharList, Checksum, Copied, Items, NoMemory};
use std::alloc::Global;

/// An additional document of a bill, as a manifest lists it.
#[derive(Debug, Drop)]
pub struct Piece {
    /// Its name: 1 to 128 bytes of UTF-8 without control characters.
    pub name: CharList,
    /// Its media type: 1 to 64 bytes of UTF-8 without control characters.
    pub media: CharList,
    /// How many bytes it has, at most 2,097,152.
    pub size: u32,
    /// The checksum of its bytes.
    pub checksum: Checksum,
}

/// Additional documents in the order in which they were attached.
pub type PieceList = Items<Piece>;

impl Copied for Piece {
    fn copy(&self, alloc: Global) -> Result<Self, NoMemory> {
        let name = self.name.copy(alloc)?;
        let media = self.media.copy(alloc)?;
        Ok(Piece {
            name,
            media,
            size: self.size,
            checksum: self.checksum,
        })
    }
}
