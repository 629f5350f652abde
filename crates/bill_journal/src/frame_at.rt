//! Frames and their places.
use ebl_base::{ByteList, Copied, Items, NoMemory};
use std::alloc::Global;

/// A frame of a journal: the place of its gate byte, counted from 0, and its content.
#[derive(Debug, Drop)]
pub struct FrameAt {
    pub place: u64,
    pub content: ByteList,
}

/// The frames of a journal, in order.
pub type FrameBytes = Items<FrameAt>;

impl Copied for FrameAt {
    fn copy(&self, alloc: Global) -> Result<Self, NoMemory> {
        Ok(FrameAt {
            place: self.place,
            content: self.content.copy(alloc)?,
        })
    }
}
