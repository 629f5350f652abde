//! What a frame changes in the documents of its bill, and in how often it was parted.
#![tactic(auto, using(crate::proofs::StateLemmas::documents))]

ghost use Rattle.std.specs.Prelude.{◌≡◌, ◌∷◌, [], ◌++◌, IfOk, count_by, reverse, unwrap_or};
ghost use Rattle.bill_diary.specs.History.{history, records_of};
ghost use Rattle.bill_diary.specs.Linked.{bill_in};
ghost use Rattle.bill_diary.specs.Pieces.{pieces_of};
ghost use Rattle.bill_diary.specs.Searches.{kept_in, listed};
ghost use Rattle.bill_diary.specs.Sound.{is_parted};

use crate::past::Past;
use bill_chain::last_link;
use bill_diary::{Frame, Record};
use ebl_base::{Checksum, Copied, Items, NoMemory};
use envelope_manifest::PieceList;
use std::alloc::Global;

/// The documents after a frame, by those before it. `None` where they stay.
pub(crate) fn pieces_after(
    alloc: Global,
    before: &Past<'_>,
    pieces: &PieceList,
    frame: &Frame,
) -> Result<Option<PieceList>, NoMemory>
    requires { pieces.now ≡ pieces_of before.now }
    ensures { IfOk result (λ after.
        unwrap_or after pieces.now ≡ pieces_of (reverse (records_of frame.now) ++ before.now)) }
{
    match frame {
        Frame::One(kept) => pieces_by(alloc, before, pieces, kept),
        Frame::BegunTaken(kept) => match kept {
            Record::Begun {
                chain,
                manifest,
                ..
            } => if last_link(chain.as_slice()).is_some() {
                Ok(Some(manifest.documents.copy(alloc)?))
            } else {
                Ok(None)
            },
            _ => pieces_by(alloc, before, pieces, kept),
        },
    }
}

// The documents after a record.
fn pieces_by(
    alloc: Global,
    before: &Past<'_>,
    pieces: &PieceList,
    kept: &Record,
) -> Result<Option<PieceList>, NoMemory>
    requires { pieces.now ≡ pieces_of before.now }
    ensures { IfOk result (λ after. unwrap_or after pieces.now ≡ pieces_of (kept.now ∷ before.now)) }
{
    match kept {
        Record::Attached { piece, .. } => {
            let mut more = pieces.copy(alloc)?;
            more.push(piece.copy(alloc)?)?;
            Ok(Some(more))
        }
        Record::Taken { entry, .. } => Ok(Some(listed(alloc, before, *entry)?)),
        _ => Ok(None),
    }
}

// The documents that came with the last Begun of an entry.
fn listed(alloc: Global, before: &Past<'_>, entry: Checksum) -> Result<PieceList, NoMemory>
    ensures { IfOk result (λ list. list ≡ listed entry before.now) }
{
    match before.received(entry) {
        Some(came) => came.manifest.documents.copy(alloc),
        None => Ok(Items::new(alloc)),
    }
}

/// How often a bill was parted after a frame of it, by how often before.
#[tactic(auto, using(crate::proofs::StateLemmas::partings))]
pub(crate) fn partings_after(frames: &[Frame], partings: usize, frame: &Frame) -> usize
    requires { partings ≡ count_by is_parted (history (bill_in frame.now) frames.now) }
    ensures { result ≡ count_by is_parted (history (bill_in frame.now) (frames.now ++ frame.now ∷ [])) }
{
    let most = frames.len();
    prove!(partings <= most);
    if is_parted(kept_in(frame)) {
        partings + 1
    } else {
        partings
    }
}

/// The record that a frame keeps.
pub(crate) fn kept_in(frame: &Frame) -> &Record
    ensures { result.now ≡ kept_in frame.now }
{
    match frame {
        Frame::One(kept) | Frame::BegunTaken(kept) => kept,
    }
}

// Whether a record is a Parted.
fn is_parted(kept: &Record) -> bool
    ensures { result ≡ is_parted kept.now }
{
    match kept {
        Record::Parted { .. } => true,
        _ => false,
    }
}
