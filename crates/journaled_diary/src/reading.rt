//! The diary that the frames of a journal are, in its register.
ghost use Rattle.std.specs.Prelude.{◌≡◌, ◌+◌, ◌≤◌, ◌↔◌, ◌++◌, ◌∷◌, [], IfOk, IsErrOf, IsTrue, MatchOption, None, OnOk, length, ℕ};
ghost use Rattle.bill_diary.specs.declared.frame.Frame.{Frame};
ghost use Rattle.bill_journal.specs.Places.{contents_of};
ghost use Rattle.bill_journal.specs.Journal.{room_for};
ghost use Rattle.record_bytes.specs.Grammar.{Spells};
ghost use Rattle.transfer_judge.specs.Legal.{FollowsDiaryLegally, IsLegal};
ghost use Rattle.journal_room.specs.Room.{is_settling};
ghost use Rattle.journaled_diary.specs.Reading.{IsDiaryOf, IsRefusedAt};

use bill_diary::Frame;
use bill_journal::{FrameAt, FrameBytes};
use ebl_base::{MAX_JOURNAL, NoMemory, PlatformCode};
use journal_room::room_of;
use legal_frames::may_follow;
use party_roster::Roster;
use record_bytes::{FrameFault, frame_has_one_spelling, frame_read};
use signed_envelope::KeyRing;
use std::alloc::Global;
use title_register::Register;
use transfer_judge::legal_diary_is_sound;

/// Why the frames of a journal are no legal diary.
#[derive(Clone, Copy, Debug, PartialEq, Eq)]
pub enum DiaryFault {
    /// The frame whose gate is at this place spells no record, or one that may not follow those before it, or has no
    /// room behind them.
    Refused(u64),
    /// Memory ran out.
    NoMemory,
}

impl From<NoMemory> for DiaryFault {
    ghost use Rattle.std.specs.Prelude.{◌≡◌};
    ghost use Rattle.journaled_diary.specs.declared.reading.DiaryFault.TheVariants as faults;

    ghost from_gives = { λ _ e. e ≡ faults.NoMemory };

    fn from(_: NoMemory) -> DiaryFault {
        DiaryFault::NoMemory
    }
}

/// The register of the legal diary of a platform, under this roster and these keys, that the frames of a journal are.
///
/// `Refused` names the first frame that spells no record, may not follow those before it, or has no room behind them.
/// Each frame is read once, and judged by the register of those before it: what it costs doesn't grow with their count,
/// but for the searches of ordered maps.
pub fn read_register<G: KeyRing>(
    alloc: Global,
    roster: &Roster,
    ring: &G,
    me: PlatformCode,
    frames: &FrameBytes,
) -> Result<Register, DiaryFault>
    ensures ok { IfOk result (λ register.
        IsDiaryOf roster.now (G.keys ring.now) me (contents_of frames.now) register.diary) }
    ensures room { IfOk result (λ register. register.room ≡ None) }
    ensures refused { (place : ℕ) → IsErrOf result (DiaryFault.Refused place)
        → IsRefusedAt roster.now (G.keys ring.now) me frames.now place }
{
    let mut register = Register::new(alloc);
    match read_frames(alloc, roster, ring, me, &mut register, frames.as_slice()) {
        Ok(()) => Ok(register),
        Err(fault) => {
            drop(register);
            Err(fault)
        }
    }
}

// Adds the frames of a journal to the register of the empty diary, one after the other.
fn read_frames<G: KeyRing>(
    alloc: Global,
    roster: &Roster,
    ring: &G,
    me: PlatformCode,
    register: &mut Register,
    frames: &[FrameAt],
) -> Result<(), DiaryFault>
    requires diary { register.old.diary ≡ [] }
    requires room { register.old.room ≡ None }
    ensures ok { OnOk result (IsDiaryOf roster.now (G.keys ring.now) me (contents_of frames.now) register.new.diary) }
    ensures room { register.new.room ≡ None }
    ensures refused { (place : ℕ) → IsErrOf result (DiaryFault.Refused place)
        → IsRefusedAt roster.now (G.keys ring.now) me frames.now place }
{
    frame_has_one_spelling();
    // How many bytes the journal of the diary so far has: at first a version and a gate.
    let mut used: u64 = 2;
    for at in frames {
        let content = at.content.as_slice();
        let found = next_frame(alloc, roster, ring, me, register, content)?;
        let Some(frame) = found else {
            return Err(DiaryFault::Refused(at.place));
        };
        if !has_room(used, &frame, content) {
            drop(frame);
            return Err(DiaryFault::Refused(at.place));
        }
        used += 5 + content.len() as u64;
        add(alloc, register, frame)?;
    }
    Ok(())
}

fn add(alloc: Global, register: &mut Register, frame: Frame) -> Result<(), NoMemory>
    requires { register.old.room ≡ None }
    ensures diary { OnOk result (register.new.diary ≡ register.old.diary ++ frame ∷ []) }
    ensures room { register.new.room ≡ None }
{
    match register.reserve(alloc, &frame) {
        Ok(()) => {
            register.add(frame);
            Ok(())
        }
        Err(no_memory) => {
            drop(frame);
            Err(no_memory)
        }
    }
}

// The frame that a content spells, where it may follow the legal diary of a register.
fn next_frame<G: KeyRing>(
    alloc: Global,
    roster: &Roster,
    ring: &G,
    me: PlatformCode,
    register: &Register,
    content: &[u8],
) -> Result<Option<Frame>, NoMemory>
    requires { IsLegal roster.now (G.keys ring.now) me register.now.diary }
    ensures { IfOk result (λ found. MatchOption found
        ((frame : Frame) → Spells content.now frame
        → ¬ FollowsDiaryLegally roster.now (G.keys ring.now) me register.now.diary frame)
        (λ frame. Spells content.now frame
        × FollowsDiaryLegally roster.now (G.keys ring.now) me register.now.diary frame)) }
{
    legal_diary_is_sound();
    match frame_read(alloc, content) {
        Ok(frame) => match may_follow(alloc, roster, ring, me, register, &frame) {
            Ok(true) => Ok(Some(frame)),
            Ok(false) => {
                drop(frame);
                Ok(None)
            }
            Err(refused) => {
                drop(frame);
                Err(refused)
            }
        },
        Err(FrameFault::NotAFrame) => Ok(None),
        Err(FrameFault::NoMemory) => Err(NoMemory),
    }
}

// Whether a frame of this content has room behind so many bytes: its gate, its length and its content.
fn has_room(used: u64, frame: &Frame, content: &[u8]) -> bool
    requires { used ≤ MAX_JOURNAL }
    ensures { IsTrue result ↔ (used + 5 + length content.now ≤ room_for (is_settling frame.now)) }
{
    let room = room_of(frame);
    used + 5 <= room && content.len() as u64 <= room - used - 5
}
