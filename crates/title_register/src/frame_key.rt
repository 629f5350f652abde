//! What a frame is asked for by.
ghost use Rattle.std.specs.Prelude.{◌≡◌};
ghost use Rattle.title_register.specs.Frames.{came_key, key_of, taken_key};

use bill_chain::last_link;
use bill_diary::{Frame, Record};
use ebl_base::{Checksum, Reference};
use upload_state::reference_of;

/// What a frame is asked for by, among those of all bills.
#[derive(Clone, Copy, PartialEq, Eq, PartialOrd, Ord)]
pub(crate) enum FrameKey {
    /// A bill that was signed here.
    Signed(Checksum),
    /// A bill that was parted.
    Parted(Checksum),
    /// The reference of an envelope that was begun.
    Begun(Reference),
    /// The bill of an envelope that was begun.
    Came(Checksum),
    /// An entry that was taken.
    Taken(Checksum),
    /// An entry that was declined.
    Declined(Checksum),
    /// A bill, and an entry of it that is settled.
    Settled(Checksum, Checksum),
    /// A bill, and an entry of it that is regained.
    Regained(Checksum, Checksum),
    /// A bill, and the checksum of a document whose bytes came.
    Document(Checksum, Checksum),
}

/// The key by which a record is asked for; of a Begun, that of its envelope.
pub(crate) fn key_of(kept: &Record) -> Option<FrameKey>
    ensures { result ≡ key_of kept.now }
{
    match kept {
        Record::Signed { bill, .. } => Some(FrameKey::Signed(*bill)),
        Record::Attached { bill, piece, .. } => Some(FrameKey::Document(*bill, piece.checksum)),
        Record::Parted { bill, .. } => Some(FrameKey::Parted(*bill)),
        Record::Settled { bill, entry } => Some(FrameKey::Settled(*bill, *entry)),
        Record::Regained { bill, entry } => Some(FrameKey::Regained(*bill, *entry)),
        Record::Begun { bill, chain, .. } => {
            let link = last_link(chain.as_slice())?;
            Some(FrameKey::Begun(reference_of(*bill, link.name)))
        }
        Record::Stored { bill, checksum, .. } => Some(FrameKey::Document(*bill, *checksum)),
        Record::Taken { entry, .. } => Some(FrameKey::Taken(*entry)),
        Record::Declined { entry, .. } => Some(FrameKey::Declined(*entry)),
        _ => None,
    }
}

/// The other key of a Begun: that of its bill.
pub(crate) fn came_key(kept: &Record) -> Option<FrameKey>
    ensures { result ≡ came_key kept.now }
{
    match kept {
        Record::Begun { bill, .. } => Some(FrameKey::Came(*bill)),
        _ => None,
    }
}

/// The key of the Taken that follows in a frame.
pub(crate) fn taken_key(frame: &Frame) -> Option<FrameKey>
    ensures { result ≡ taken_key frame.now }
{
    match frame {
        Frame::One(_) => None,
        Frame::BegunTaken(kept) => match kept {
            Record::Begun { chain, .. } => {
                let link = last_link(chain.as_slice())?;
                Some(FrameKey::Taken(link.name))
            }
            _ => None,
        },
    }
}
