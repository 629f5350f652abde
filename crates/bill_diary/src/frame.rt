//! Frames and diaries: what a platform writes down, in the order in which it does.
ghost use Rattle.std.specs.Prelude.{◌≡◌};
ghost use Rattle.bill_diary.specs.Searches.{kept_in};
ghost use Rattle.bill_diary.specs.Linked.{bill_in};

use crate::record::Record;
use ebl_base::{Checksum, Copied, Items, NoMemory};
use std::alloc::Global;

/// What is written down at once.
#[derive(Debug, Drop)]
pub enum Frame {
    /// One record.
    One(Record),
    /// A Begun that is taken. The Taken of the last entry of its chain follows it, and isn't kept apart.
    BegunTaken(Record),
}

impl Frame {
    /// The record that is kept.
    pub(crate) fn kept(&self) -> &Record
        ensures { result.now ≡ kept_in self.now }
    {
        match self {
            Frame::One(kept) | Frame::BegunTaken(kept) => kept,
        }
    }

    /// The bill of its records.
    pub fn bill(&self) -> Checksum
        ensures { result ≡ bill_in self.now }
    {
        self.kept().bill()
    }
}

/// Frames in the order in which they were written.
pub type Diary = Items<Frame>;

impl Copied for Frame {
    fn copy(&self, alloc: Global) -> Result<Self, NoMemory> {
        match self {
            Frame::One(record) => Ok(Frame::One(record.copy(alloc)?)),
            Frame::BegunTaken(begun) => Ok(Frame::BegunTaken(begun.copy(alloc)?)),
        }
    }
}
