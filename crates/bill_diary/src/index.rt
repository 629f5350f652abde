//! A diary by its bills.
ghost use Rattle.std.specs.Prelude.{◌≡◌, ◌≤◌, IfOk, length, take};
ghost use Rattle.bill_diary.specs.History.{history};

use crate::frame::Frame;
use crate::walk::History;
use ebl_base::{Checksum, NoMemory};
use std::alloc::Global;
use std::collections::BTreeMap;
use std::marker::Model;

/// The frames of a diary, each linked to the one before it that is of the same bill. Contracts see the frames.
///
/// A history goes over the frames of its bill alone.
#[derive(Drop)]
pub struct DiaryIndex<'a> {
    frames: &'a [Frame],
    // For each frame, how many there are up to the one before it of the same bill: 0 where there is none.
    links: Vec<usize>,
    // For each bill, how many frames there are up to its last.
    ends: BTreeMap<Checksum, usize>,
}

impl<'a> Model for DiaryIndex<'a> {
    ghost use Rattle.std.specs.Prelude.{List};
    ghost use Rattle.bill_diary.specs.declared.frame.Frame.{Frame};
    ghost use Rattle.bill_diary.specs.Linked.{IsIndexed};

    ghost Value = { List Frame };

    ghost view = { λ s. s.frames.now };

    ghost invariant = { λ s. IsIndexed s.frames.now s.links.items s.ends };
}

impl<'a> DiaryIndex<'a> {
    /// The index of these frames. It costs a search of an ordered map for each.
    pub fn of(alloc: Global, frames: &'a [Frame]) -> Result<Self, NoMemory>
        ensures { IfOk result (λ index. index ≡ frames.now) }
    {
        let mut links = Vec::new(alloc);
        let mut ends = BTreeMap::new(alloc);
        for (i, frame) in frames.iter().enumerate() {
            let end = ends.insert(frame.bill(), i + 1)?;
            links.push(end.unwrap_or(0))?;
        }
        Ok(DiaryIndex {
            frames,
            links,
            ends,
        })
    }

    /// The frames.
    pub fn frames(&self) -> &'a [Frame]
        ensures { result.now ≡ self.now }
    {
        self.frames
    }

    /// The whole history of a bill.
    pub fn history(&self, bill: Checksum) -> History<'_>
        ensures { result ≡ history bill self.now }
    {
        let end = self.ends.get(&bill).copied().unwrap_or(0);
        History::along(&self.frames[..end], &self.links, bill)
    }

    /// The history of a bill in the first `count` frames. Those of other bills at their end are gone over too.
    pub fn history_in_front(&self, count: usize, bill: Checksum) -> History<'_>
        requires { count ≤ length self.now }
        ensures { result ≡ history bill (take count self.now) }
    {
        History::along(&self.frames[..count], &self.links, bill)
    }
}
