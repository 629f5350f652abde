//! Frames as they are read.
ghost use Rattle.std.specs.Prelude.{◌≡◌, ◌∷◌, IfOk, IsErrOf, MatchResult};
ghost use Rattle.bill_diary.specs.declared.frame.Frame.{Frame};
ghost use Rattle.record_bytes.specs.Grammar.{Spells};
ghost use Rattle.record_bytes.specs.Reading.{Finds};

use crate::begun::begun_of;
use crate::fault::FrameFault;
use crate::fields::{are_same, byte_at, text_at};
use crate::laws::frame_has_one_spelling;
use crate::records::record_of;
use crate::writing::push_taken_after;
use bill_diary::Frame;
use ebl_base::{ByteList, NoMemory};
use std::alloc::Global;

/// The frame that bytes spell, as `docs/journal.md` has it: its names and values are those of its texts.
///
/// [`FrameFault::NotAFrame`] if and only if they spell none. Each text is read once and hashed once; a Begun's body is
/// also written once, to be compared.
pub fn frame_read(alloc: Global, bytes: &[u8]) -> Result<Frame, FrameFault>
    ensures ok { IfOk result (Spells bytes.now) }
    ensures not_a_frame { IsErrOf result FrameFault.NotAFrame → (frame : Frame) → ¬ Spells bytes.now frame }

    // A frame is read from its spelling as it was.
    ensures again { (frame : Frame) → Spells bytes.now frame
        → MatchResult result (λ read. read ≡ frame) (λ fault. fault ≡ FrameFault.NoMemory) }
{
    frame_has_one_spelling();
    match frame_of(alloc, bytes)? {
        Some(frame) => Ok(frame),
        None => Err(FrameFault::NotAFrame),
    }
}

fn frame_of(alloc: Global, bytes: &[u8]) -> Result<Option<Frame>, NoMemory>
    ensures { IfOk result (Finds (Spells bytes.now)) }
{
    let Some((tag, fields)) = byte_at(bytes) else {
        return Ok(None);
    };
    if tag == 7 {
        return begun_frame(alloc, fields);
    }
    match record_of(alloc, tag, fields)? {
        Some(record) => Ok(Some(Frame::One(record))),
        None => Ok(None),
    }
}

// The frame of a Begun: nothing follows, or the Taken of its chain's last entry.
fn begun_frame(alloc: Global, fields: &[u8]) -> Result<Option<Frame>, NoMemory>
    ensures { IfOk result (Finds (Spells (7 ∷ fields.now))) }
{
    let Some((body, behind)) = text_at(fields) else {
        return Ok(None);
    };
    let Some(begun) = begun_of(alloc, body)? else {
        return Ok(None);
    };
    if behind.is_empty() {
        return Ok(Some(Frame::One(begun)));
    }
    let mut taken = ByteList::new(alloc);
    push_taken_after(&mut taken, &begun)?;
    if are_same(taken.as_slice(), behind) {
        Ok(Some(Frame::BegunTaken(begun)))
    } else {
        Ok(None)
    }
}
