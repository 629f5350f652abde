//! The room that a frame is given on a journal.
ghost use Rattle.std.specs.Prelude.{◌≡◌};
ghost use Rattle.bill_journal.specs.Journal.{room_for};
ghost use Rattle.journal_room.specs.Room.{is_settling};

use bill_diary::{Frame, Record};
use ebl_base::{MAX_JOURNAL, MAX_JOURNAL_UNSETTLED};

/// Whether a frame settles a bill that is parting. For these a journal has the larger room.
pub fn is_settling(frame: &Frame) -> bool
    ensures { result ≡ is_settling frame.now }
{
    match frame {
        Frame::One(kept) => matches!(kept, Record::Settled { .. } | Record::Regained { .. }),
        Frame::BegunTaken(_) => false,
    }
}

/// How many bytes a journal may have with this frame at its end: 16,777,216 where it settles a bill that is parting,
/// else 14,680,064.
pub fn room_of(frame: &Frame) -> u64
    ensures { result ≡ room_for (is_settling frame.now) }
{
    if is_settling(frame) {
        MAX_JOURNAL
    } else {
        MAX_JOURNAL_UNSETTLED
    }
}
