//! The diaries of all platforms together.
use bill_diary::Diary;
use ebl_base::{Copied, Items, NoMemory, PlatformCode};
use std::alloc::Global;

/// A list of diaries.
pub type DiaryList = Items<Diary>;

/// A platform with its diaries.
#[derive(Debug, Drop)]
pub struct Member {
    pub platform: PlatformCode,
    /// One diary for each of the sixteen shards, in their order. A bill belongs to the shard that is the remainder of
    /// its first byte by 16.
    pub diaries: DiaryList,
}

/// The diaries of all platforms together. No order in time is between those of two platforms.
pub type Family = Items<Member>;

impl Copied for Member {
    fn copy(&self, alloc: Global) -> Result<Self, NoMemory> {
        Ok(Member {
            platform: self.platform,
            diaries: self.diaries.copy(alloc)?,
        })
    }
}
