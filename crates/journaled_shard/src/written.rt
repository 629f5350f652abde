//! What a shard wrote down, on its journal.
//!
//! (1) Where the journal was read, it is the diary's, and all of it is durable.
//! (2) After an append that failed its frame is loose: the disk has the diary with it or without it. After a reading
//!     that failed nothing else changed. The journal is then read again before anything rests on it.
//! (3) The register has the diary, and between two calls no room for a frame. Memory for a frame is taken before its
//!     append: so after a device call nothing can fail but the disk.
ghost use Rattle.std.specs.Prelude.{◌≡◌, ◌≢◌, ◌⊎◌, ◌↔◌, ◌<◌, ◌≤◌, ◌++◌, [], ◌∷◌, true, false, List, ℕ, None, Some, length, IfOk, IfSome, IsErrOf, IsTrue, OnErr, OnOk};
ghost use Rattle.std.specs.Option.{option_to_list};
ghost use Rattle.ebl_base.specs.Faults.{Rose};
ghost use Rattle.disk_model.specs.Disk.{LeavesOnly};
ghost use Rattle.bill_diary.specs.declared.frame.Frame.{Frame};
ghost use Rattle.bill_journal.specs.Places.{contents_of};
ghost use Rattle.record_bytes.specs.Forms.{HasNames};
ghost use Rattle.record_bytes.specs.Grammar.{frame_bytes, kept};
ghost use Rattle.journaled_diary.specs.Contents.{contents_in};
ghost use Rattle.title_register.specs.Register.{IsReadyFor};
ghost use Rattle.journaled_shard.specs.View.{written_view};
ghost use Rattle.journaled_shard.specs.Written.{AreNamed, HasDiary, HasNamesOf, IsKeptOrDropped, IsLeft, IsNamedIfAny, IsOnDisk, IsRead, IsStill, IsWritten};

use crate::unwritten::Unwritten;
use bill_diary::{Diary, Frame};
use bill_journal::{AppendFault, FrameAt, Framed, Journal, OpenFault, no_journal_is_damaged};
use disk_model::Disk;
use ebl_base::{MAX_FRAME_CONTENT, NoMemory};
use journal_room::is_settling;
use record_bytes::frame_write;
use std::alloc::Global;
use title_register::Register;

// A register whose diary is on a journal.
#[derive(Drop)]
pub(crate) struct Written<D: Disk> {
    pub(crate) register: Register,
    // The frame of an append that failed.
    pub(crate) loose: Option<Frame>,
    // Whether the journal has to be read again before anything rests on it.
    pub(crate) unread: bool,
    pub(crate) journal: Journal<D>,
}

impl<D: Disk> Written<D> {
    // Reads the journal again, which shows whether the loose frame is there: it is kept or dropped.
    //
    // `Damaged` names the first frame that isn't the diary's; it never comes over a disk that tells. After a fault
    // nothing has changed, and the journal has to be read again.
    pub(crate) fn resolve(&mut self, alloc: Global) -> Result<(), OpenFault>
        requires room { self.old.register.room ≡ None }
        ensures told { D.tells self.new.journal.disk ≡ D.tells self.old.journal.disk }
        ensures found { OnOk result (IsKeptOrDropped self.old.register.diary self.old.loose self.new.register.diary) }
        ensures read { OnOk result (IsRead (written_view self.new)) }
        ensures still { OnErr result (IsStill (written_view self.old) (written_view self.new)) }
        ensures named { HasNamesOf (written_view self.old) → HasNamesOf (written_view self.new) }
        ensures on_disk { D.tells self.old.journal.disk ≡ true → IsOnDisk D.seen D.may_leave (written_view self.old)
            → IsOnDisk D.seen D.may_leave (written_view self.new) }
        ensures any_moment { D.tells self.old.journal.disk ≡ true
            → IsOnDisk D.seen D.may_leave (written_view self.old)
            → LeavesOnly D.moment D.left_since self.old.journal.disk self.new.journal.disk
            (HasDiary self.old.register.diary self.old.loose) }
        ensures undamaged { (place : ℕ) → D.tells self.old.journal.disk ≡ true
            → IsOnDisk D.seen D.may_leave (written_view self.old) → IsErrOf result (OpenFault.Damaged place) → ⊥ }
        ensures later { D.faults self.old.journal.disk ≤ D.faults self.new.journal.disk }
        ensures failed { IsErrOf result OpenFault.Disk
            → Rose (D.faults self.old.journal.disk) (D.faults self.new.journal.disk) }
        ensures room { self.new.register.room ≡ None }
    {
        no_journal_is_damaged();
        self.unread = true;
        let frames = self.journal.reread(alloc)?;
        keep_or_drop(
            alloc,
            frames.as_slice(),
            &mut self.register,
            &mut self.loose,
        )?;
        self.unread = false;
        Ok(())
    }

    // Reads the journal again where it has to be, and so finds whether the loose frame is there. Faults come as from
    // `resolve`.
    pub(crate) fn settle(&mut self, alloc: Global) -> Result<(), OpenFault>
        requires read { self.old.unread ≡ false → IsRead (written_view self.old) }
        requires room { self.old.register.room ≡ None }
        ensures told { D.tells self.new.journal.disk ≡ D.tells self.old.journal.disk }
        ensures found { OnOk result (IsKeptOrDropped self.old.register.diary self.old.loose self.new.register.diary) }
        ensures read { OnOk result (IsRead (written_view self.new)) }
        ensures untouched { self.old.unread ≡ false → self.new.journal ≡ self.old.journal }
        ensures was { OnErr result (self.old.unread ≡ true) }
        ensures still { OnErr result (IsStill (written_view self.old) (written_view self.new)) }
        ensures named { HasNamesOf (written_view self.old) → HasNamesOf (written_view self.new) }
        ensures on_disk { D.tells self.old.journal.disk ≡ true → IsOnDisk D.seen D.may_leave (written_view self.old)
            → IsOnDisk D.seen D.may_leave (written_view self.new) }
        ensures any_moment { D.tells self.old.journal.disk ≡ true
            → IsOnDisk D.seen D.may_leave (written_view self.old)
            → LeavesOnly D.moment D.left_since self.old.journal.disk self.new.journal.disk
            (HasDiary self.old.register.diary self.old.loose) }
        ensures undamaged { (place : ℕ) → D.tells self.old.journal.disk ≡ true
            → IsOnDisk D.seen D.may_leave (written_view self.old) → IsErrOf result (OpenFault.Damaged place) → ⊥ }
        ensures later { D.faults self.old.journal.disk ≤ D.faults self.new.journal.disk }
        ensures failed { IsErrOf result OpenFault.Disk
            → Rose (D.faults self.old.journal.disk) (D.faults self.new.journal.disk) }
        ensures room { self.new.register.room ≡ None }
    {
        if self.unread {
            return self.resolve(alloc);
        }
        Ok(())
    }

    // Writes a frame down, behind the others.
    pub(crate) fn write(&mut self, alloc: Global, frame: Frame) -> Result<(), Unwritten>
        requires read { IsRead (written_view self.old) }
        requires room { self.old.register.room ≡ None }
        ensures told { D.tells self.new.journal.disk ≡ D.tells self.old.journal.disk }
        ensures written { IsWritten (written_view self.old) frame (written_view self.new) result }
        ensures named { HasNamesOf (written_view self.old) → HasNamesOf (written_view self.new) }
        ensures on_disk { D.tells self.old.journal.disk ≡ true → IsOnDisk D.seen D.may_leave (written_view self.old)
            → IsOnDisk D.seen D.may_leave (written_view self.new) }
        ensures any_moment { D.tells self.old.journal.disk ≡ true
            → IsOnDisk D.seen D.may_leave (written_view self.old)
            → LeavesOnly D.moment D.left_since self.old.journal.disk self.new.journal.disk
            (IsLeft (written_view self.old) (written_view self.new)) }
        ensures later { D.faults self.old.journal.disk ≤ D.faults self.new.journal.disk }
        ensures failed { IsErrOf result Unwritten.Disk
            → Rose (D.faults self.old.journal.disk) (D.faults self.new.journal.disk) }
        ensures room { self.new.register.room ≡ None }
    {
        let settling = is_settling(&frame);
        let framed = make_ready(alloc, &mut self.register, &frame)?;
        match self.journal.append(&framed, settling) {
            Ok(()) => {
                self.register.add(frame);
                Ok(())
            }
            Err(AppendFault::Full) => {
                // A call: what one arm alone moves is dropped in the others field by field, which is long to prove.
                drop(frame);
                self.register.release();
                Err(Unwritten::Full)
            }
            Err(AppendFault::Disk) => {
                self.register.release();
                hold(&mut self.loose, frame);
                self.unread = true;
                Err(Unwritten::Disk)
            }
        }
    }

    // The disk.
    pub(crate) fn close(self) -> D
        ensures { result ≡ self.journal.disk }
    {
        let Written {
            register,
            loose,
            journal,
            ..
        } = self;
        drop(register);
        drop(loose);
        journal.close()
    }

    // The disk and the diary.
    pub(crate) fn close_whole(self) -> (D, Diary)
        requires { self.register.room ≡ None }
        ensures { result ≡ (self.journal.disk, self.register.diary) }
    {
        let Written {
            register,
            loose,
            journal,
            ..
        } = self;
        drop(loose);
        (journal.close(), register.into_diary())
    }
}

// ---- reading

// Keeps the loose frame where it stands behind the diary's in the journal, and else drops it. `Damaged` names the first
// frame that is neither the diary's nor the loose one. After a fault nothing has changed.
fn keep_or_drop(
    alloc: Global,
    frames: &[FrameAt],
    register: &mut Register,
    loose: &mut Option<Frame>,
) -> Result<(), OpenFault>
    requires room { register.old.room ≡ None }
    ensures contents { OnOk result (contents_of frames.now ≡ contents_in register.new.diary) }
    ensures found { OnOk result (IsKeptOrDropped register.old.diary loose.old register.new.diary) }
    ensures none { OnOk result (loose.new ≡ None) }
    ensures err { OnErr result (register.new.diary ≡ register.old.diary) }
    ensures err_loose { OnErr result (loose.new ≡ loose.old) }
    ensures named { AreNamed register.old.diary → IsNamedIfAny loose.old → AreNamed register.new.diary }
    ensures damaged { (place : ℕ) (found : List Frame) → IsErrOf result (OpenFault.Damaged place)
        → IsKeptOrDropped register.old.diary loose.old found → contents_of frames.now ≢ contents_in found }
    ensures room { register.new.room ≡ None }
    ensures no_disk { IsErrOf result OpenFault.Disk → ⊥ }
{
    let behind = frames_behind(alloc, frames, register.frames())?;
    let there = is_there(alloc, behind, loose)?;
    keep_if_there(alloc, register, loose, there)?;
    Ok(())
}

// The frames behind those of a diary. `Damaged` names the first frame that isn't the diary's.
fn frames_behind<'a>(
    alloc: Global,
    frames: &'a [FrameAt],
    diary: &[Frame],
) -> Result<&'a [FrameAt], OpenFault>
    ensures ok { IfOk result (λ behind. (more : List (List ℕ))
        → (contents_of frames.now ≡ contents_in diary.now ++ more) ↔ (contents_of behind.now ≡ more)) }
    ensures damaged { (place : ℕ) (more : List (List ℕ)) → IsErrOf result (OpenFault.Damaged place)
        → contents_of frames.now ≢ contents_in diary.now ++ more }
    ensures no_disk { IsErrOf result OpenFault.Disk → ⊥ }
{
    let mut rest = frames;
    for frame in diary {
        let [at, behind @ ..] = rest else {
            return Err(OpenFault::Damaged(end_of(frames)));
        };
        if !is_content_of(alloc, at, frame)? {
            return Err(OpenFault::Damaged(at.place));
        }
        rest = behind;
    }
    Ok(rest)
}

// The place of the gate that ends some frames.
fn end_of(frames: &[FrameAt]) -> u64 {
    match frames.last() {
        Some(at) => at
            .place
            .saturating_add(5)
            .saturating_add(at.content.len() as u64),
        None => 1,
    }
}

// Whether a journal's frame spells this one.
fn is_content_of(alloc: Global, at: &FrameAt, frame: &Frame) -> Result<bool, NoMemory>
    ensures { IfOk result (λ is. IsTrue is ↔ (at.now.content ≡ frame_bytes frame.now)) }
{
    let bytes = frame_write(alloc, frame)?;
    Ok(at.content.as_slice() == bytes.as_slice())
}

// Whether the loose frame stands behind the diary's. `Damaged` names the first frame that is neither.
fn is_there(alloc: Global, behind: &[FrameAt], loose: &Option<Frame>) -> Result<bool, OpenFault>
    ensures there { result ≡ Ok true → (frame : Frame) × (loose.now ≡ Some frame)
        × (contents_of behind.now ≡ frame_bytes frame ∷ []) }
    ensures not { result ≡ Ok false → contents_of behind.now ≡ [] }
    ensures damaged { (place : ℕ) → IsErrOf result (OpenFault.Damaged place) → (contents_of behind.now ≢ [])
        × ((frame : Frame) → loose.now ≡ Some frame → contents_of behind.now ≢ frame_bytes frame ∷ []) }
    ensures no_disk { IsErrOf result OpenFault.Disk → ⊥ }
{
    let [at, more @ ..] = behind else {
        return Ok(false);
    };
    let Some(frame) = loose else {
        return Err(OpenFault::Damaged(at.place));
    };
    if !is_content_of(alloc, at, frame)? {
        return Err(OpenFault::Damaged(at.place));
    }
    match more {
        [] => Ok(true),
        [other, ..] => Err(OpenFault::Damaged(other.place)),
    }
}

// Puts the loose frame behind the diary's if it is there, and else drops it. Out of memory, both stay as they are.
fn keep_if_there(
    alloc: Global,
    register: &mut Register,
    loose: &mut Option<Frame>,
    there: bool,
) -> Result<(), NoMemory>
    requires room { register.old.room ≡ None }
    ensures kept { OnOk result (there ≡ true → register.new.diary ≡ register.old.diary ++ option_to_list loose.old) }
    ensures dropped { OnOk result (there ≡ false → register.new.diary ≡ register.old.diary) }
    ensures none { OnOk result (loose.new ≡ None) }
    ensures err { OnErr result (register.new.diary ≡ register.old.diary) }
    ensures err_loose { OnErr result (loose.new ≡ loose.old) }
    ensures room { register.new.room ≡ None }
{
    if there {
        return keep(alloc, register, loose);
    }
    forget(loose);
    Ok(())
}

// Drops the loose frame.
pub(crate) fn forget(loose: &mut Option<Frame>)
    ensures { loose.new ≡ None }
{
    drop(loose.take());
}

// The loose frame is this one.
fn hold(loose: &mut Option<Frame>, frame: Frame)
    ensures { loose.new ≡ Some frame }
{
    drop(loose.replace(frame));
}

// Puts the loose frame behind the diary's. Out of memory, both stay as they are.
fn keep(alloc: Global, register: &mut Register, loose: &mut Option<Frame>) -> Result<(), NoMemory>
    requires room { register.old.room ≡ None }
    ensures kept { OnOk result (register.new.diary ≡ register.old.diary ++ option_to_list loose.old) }
    ensures none { OnOk result (loose.new ≡ None) }
    ensures err { OnErr result (register.new.diary ≡ register.old.diary) }
    ensures err_loose { OnErr result (loose.new ≡ loose.old) }
    ensures room { register.new.room ≡ None }
{
    let Some(frame) = loose.take() else {
        return Ok(());
    };
    let result = register.reserve(alloc, &frame);
    match result {
        Ok(()) => register.add(frame),
        Err(NoMemory) => hold(loose, frame),
    }
    result
}

// ---- writing

// Makes a frame's bytes ready for an append, and takes the memory that adding it needs.
fn make_ready(alloc: Global, register: &mut Register, frame: &Frame) -> Result<Framed, Unwritten>
    requires { register.old.room ≡ None }
    ensures diary { register.new.diary ≡ register.old.diary }
    ensures ready { OnOk result (IsReadyFor frame.now register.new) }
    ensures ok { IfOk result (λ framed. framed ≡ frame_bytes frame.now) }
    ensures named { OnOk result (HasNames (kept frame.now)) }
    ensures room { OnErr result (register.new.room ≡ None) }
    ensures full { IsErrOf result Unwritten.Full → MAX_FRAME_CONTENT < length (frame_bytes frame.now) }
    ensures no_disk { IsErrOf result Unwritten.Disk → ⊥ }
{
    let framed = framed(alloc, frame)?;
    register.reserve(alloc, frame)?;
    Ok(framed)
}

// The bytes of a frame, ready for an append.
fn framed(alloc: Global, frame: &Frame) -> Result<Framed, Unwritten>
    ensures ok { IfOk result (λ framed. framed ≡ frame_bytes frame.now) }
    ensures named { IfOk result (λ framed. HasNames (kept frame.now)) }
    ensures full { IsErrOf result Unwritten.Full → MAX_FRAME_CONTENT < length (frame_bytes frame.now) }
    ensures no_disk { IsErrOf result Unwritten.Disk → ⊥ }
{
    let content = frame_write(alloc, frame)?;
    let content = content.as_slice();
    if content.len() > MAX_FRAME_CONTENT {
        return Err(Unwritten::Full);
    }
    Ok(Framed::new(alloc, content)?)
}
