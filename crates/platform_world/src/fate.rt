//! What became of an event.
use ebl_base::{Copied, Items, NoMemory};
use std::alloc::Global;

/// Numbers of shards, rising.
pub type ShardList = Items<u32>;

/// How the request of an event ended.
#[derive(Clone, Copy, Debug, PartialEq, Eq)]
pub enum FateEnd {
    /// It was taken whole.
    Whole,
    /// The ring of keys failed to sign, and nothing changed.
    SignFault,
    /// The disk failed while the frame was written: the frame is loose.
    Failed,
    /// The loose shard of this number couldn't be read.
    Stuck(u32),
    /// Memory ran out.
    Short,
}

/// What became of an event, apart from its answer.
#[derive(Debug, Drop)]
pub struct Fate {
    /// How its request ended.
    pub end: FateEnd,
    /// The shards whose loose frame was kept. Every other loose frame that was resolved was dropped.
    pub kept: ShardList,
}

/// The fates of events, in their order.
pub type FateList = Items<Fate>;

impl Copied for Fate {
    fn copy(&self, alloc: Global) -> Result<Self, NoMemory> {
        let kept = self.kept.copy(alloc)?;
        Ok(Fate {
            end: self.end,
            kept,
        })
    }
}
