//! Entries with their signed texts, in a list from the first.
use crate::checksum::Checksum;
use crate::entry::Entry;
use crate::items::Copied;
use crate::no_memory::NoMemory;
use crate::shared_items::SharedItems;
use crate::signed_text::SignedText;
use std::alloc::Global;

/// One entry of a chain, with its signed text and the text's name, so that neither is worked out twice.
#[derive(Debug, Drop)]
pub struct ChainLink {
    /// The entry as its platform signed it.
    pub text: SignedText,
    /// The checksum of the text: the entry's name.
    pub name: Checksum,
    /// What the text says.
    pub entry: Entry,
}

/// The entries of a bill from the first, each at the platform to which the one before it moved possession.
///
/// A chain never changes, and its entries stand once: in a frame, beside it and wherever else it is kept.
pub type Chain = SharedItems<ChainLink>;

impl Copied for ChainLink {
    fn copy(&self, alloc: Global) -> Result<Self, NoMemory> {
        let text = self.text.copy(alloc)?;
        let entry = self.entry.copy(alloc)?;
        Ok(ChainLink {
            text,
            name: self.name,
            entry,
        })
    }
}
