//! The records of a bill, from the newest to the oldest.
ghost use Rattle.std.specs.Prelude.{◌≡◌, [], ◌∷◌, ◌++◌, ◌≤◌, IfSome, MatchOption, length, option_copied, option_map, reverse, slice_get, take, unwrap_or};
ghost use Rattle.std.specs.Option.{option_to_list};
ghost use Rattle.bill_diary.specs.History.{history, record_at, records_of, taken_after};
ghost use Rattle.bill_diary.specs.Linked.{AreLinked};

use crate::frame::Frame;
use crate::record::Record;
use crate::record_ref::RecordRef;
use bill_chain::last_link;
use ebl_base::Checksum;
use std::marker::Model;

/// What is left of a bill's history, newest first: behind a record that was handed out are those before it.
#[derive(Drop)]
pub struct History<'a> {
    frames: &'a [Frame],
    // How many frames there are up to the one before a frame that is of the same bill, for each that is linked.
    links: &'a [usize],
    // The Begun of a frame whose Taken was handed out.
    begun: Option<&'a Record>,
    bill: Checksum,
}

impl<'a> Model for History<'a> {
    ghost use Rattle.std.specs.Prelude.{List};
    ghost use Rattle.std.specs.List.{cons_option};
    ghost use Rattle.std.specs.Option.{option_copied};
    ghost use Rattle.bill_diary.specs.declared.record.Record.{Record};
    ghost use Rattle.bill_diary.specs.History.{history};
    ghost use Rattle.bill_diary.specs.Linked.{AreLinked};

    ghost Value = { List Record };

    ghost view = { λ s. cons_option (option_copied s.begun) (history s.bill s.frames.now) };

    ghost invariant = { λ s. AreLinked s.frames.now s.links.now };
}

impl<'a> History<'a> {
    /// The whole history of a bill in these frames.
    pub fn of(frames: &'a [Frame], bill: Checksum) -> Self
        ensures { result ≡ history bill frames.now }
    {
        History::along(frames, &[], bill)
    }

    /// The same, where the frames are linked: it goes over those of the bill alone, and over those behind its last.
    pub(crate) fn along(frames: &'a [Frame], links: &'a [usize], bill: Checksum) -> Self
        requires { AreLinked frames.now links.now }
        ensures { result ≡ history bill frames.now }
    {
        History {
            frames,
            links,
            begun: None,
            bill,
        }
    }

    /// The newest record that is left.
    pub fn next(&mut self) -> Option<RecordRef<'a>>
        ensures { MatchOption result (self.old ≡ []) (λ r. self.old ≡ record_at r ∷ self.new) }
    {
        if let Some(kept) = self.begun {
            self.begun = None;
            return Some(RecordRef::Kept(kept));
        }
        while let Some((frame, before)) = self.frames.split_last() {
            if frame.bill() == self.bill {
                let (newest, begun) = newest_of(frame);
                self.frames = up_to_link(before, self.links);
                self.begun = begun;
                return Some(newest);
            }
            self.frames = before;
        }
        None
    }

    /// The same records from their newest on, for a search that goes its own way.
    pub fn restart(&self) -> History<'a>
        ensures { result ≡ self.now }
    {
        History {
            frames: self.frames,
            links: self.links,
            begun: self.begun,
            bill: self.bill,
        }
    }
}

// The newest record of a frame, and the Begun before it, if there is one.
fn newest_of(frame: &Frame) -> (RecordRef<'_>, Option<&Record>)
    ensures { reverse (records_of frame.now) ≡ record_at result.0 ∷ option_to_list (option_copied result.1) }
{
    match frame {
        Frame::One(kept) => (RecordRef::Kept(kept), None),
        Frame::BegunTaken(begun) => match taken_after(begun) {
            Some(taken) => (taken, Some(begun)),
            None => (RecordRef::Kept(begun), None),
        },
    }
}

// The frames up to the link of the one behind them, where there is one.
fn up_to_link<'a>(frames: &'a [Frame], links: &[usize]) -> &'a [Frame]
    requires { IfSome (slice_get links.now (length frames.now)) (λ n. n ≤ length frames.now) }
    ensures { result.now ≡ take (unwrap_or (slice_get links.now (length frames.now)) (length frames.now)) frames.now }
{
    match links.get(frames.len()) {
        Some(link) => &frames[..*link],
        None => frames,
    }
}

// The Taken that follows a Begun in its frame.
fn taken_after<'a>(begun: &Record) -> Option<RecordRef<'a>>
    ensures { option_map record_at result ≡ taken_after begun.now }
{
    match begun {
        Record::Begun { bill, chain, .. } => match last_link(chain.as_slice()) {
            Some(link) => Some(RecordRef::Taken {
                bill: *bill,
                entry: link.name,
            }),
            None => None,
        },
        _ => None,
    }
}
