//! Journals on disks.
//!
//! Byte 0 is the version, 1. Then stand frames: a gate byte 1, the content's length in four bytes with the highest
//! first, the content. The first gate that isn't 1 ends the list, whatever follows. A fresh journal is 01 00.
//!
//! (1) The gate that ends the list is on the disk before a frame stands in front of it.
//! (2) A frame and the shut gate behind it are on the disk before its gate is opened.
//! (3) A call that answers Ok leaves all that it wrote on the disk.
//! (4) After a call that failed, the disk has the frames before it, with the new one or without. The journal is
//!     loose: it is read again before anything rests on it.
//! (5) A disk is synced before it is read, when it is opened as when it is read again: what was written and never
//!     synced is read all the same, and a crash may take it back.
ghost use Rattle.std.specs.Prelude.{◌≡◌, ◌↔◌, ◌⊎◌, ◌+◌, ◌<◌, ◌≤◌, ◌++◌, [], ◌∷◌, true, false, List, ℕ, length, IsTrue, IfOk, IfErr, OnOk, OnErr, IsErrOf, MatchResult, IsErr, take, drop};
ghost use Rattle.ebl_base.specs.Faults.{Rose};
ghost use Rattle.disk_model.specs.Disk.{LeavesOnly, Looked};
ghost use Rattle.bill_journal.specs.Frames.{StandsFor, IsDamagedAt};
ghost use Rattle.bill_journal.specs.Places.{contents_of, IsRead};
ghost use Rattle.bill_journal.specs.Journal.{HasContents, MayHave, WithOrWithout, room_for};

use crate::fault::{AppendFault, OpenFault};
use crate::frame_at::FrameBytes;
use crate::framed::Framed;
use crate::steps::{read_again, read_from, read_or_make, write_frame};
use disk_model::Disk;
use ebl_base::{Failed, MAX_JOURNAL, MAX_JOURNAL_UNSETTLED};
use std::alloc::Global;
use std::marker::Model;

/// A journal on a disk: frames one behind the other, each whole or absent after a crash at any moment.
///
/// It is loose after an append or a reread that failed, until a reread answers `Ok`: then the disk may have the frame
/// of the failed append, or not.
#[derive(Drop)]
pub struct Journal<D: Disk> {
    disk: D,
    end: u64,
    loose: bool,
}

impl<D: Disk> Model for Journal<D> {
    ghost use Rattle.std.specs.Prelude.{◌≡◌, ◌<◌, ◌^◌, true, length};
    ghost use Rattle.bill_journal.specs.Journal.{JournalRecord};

    ghost Value = { JournalRecord D };

    ghost view = { λ s. record { disk = s.disk; end = s.end; loose = s.loose } };

    ghost invariant = { λ s. (s.end < 2 ^ 63) × (D.tells s.disk ≡ true → s.end < length (D.seen s.disk)) };
}

impl<D: Disk> Journal<D> {
    /// Syncs a disk and reads its journal, without writing anything. A disk of length 0 is made a journal instead.
    ///
    /// `Disk` comes only where the disk's count of faults rose. `Damaged` names the place of a frame that runs past
    /// the end, the place where the disk ends without a gate, or 0 where the version isn't 1. Each fault hands the
    /// disk back.
    pub fn open(alloc: Global, disk: D) -> Result<(Journal<D>, FrameBytes), (D, OpenFault)>
        ensures told { MatchResult result (λ r. D.tells r.0.disk ≡ D.tells disk) (λ r. D.tells r.0 ≡ D.tells disk) }
        ensures ready { IfOk result (λ r. r.0.loose ≡ false) }
        ensures places { IfOk result (λ r. IsRead r.1 r.0.end) }

        // A blank disk becomes a journal without frames, all of it on the disk.
        ensures blank { D.tells disk ≡ true → D.seen disk ≡ [] → IfOk result (λ r. r.1 ≡ []) }
        ensures version { D.tells disk ≡ true → D.seen disk ≡ [] → IfOk result (λ r. D.seen r.0.disk ≡ 1 ∷ 0 ∷ []) }
        ensures fresh { D.tells disk ≡ true → D.seen disk ≡ []
            → IfOk result (λ r. HasContents D.seen D.may_leave r.0 []) }

        // Another disk is synced and read.
        ensures stands { D.tells disk ≡ true → 0 < length (D.seen disk)
            → IfOk result (λ r. StandsFor (D.seen disk) (contents_of r.1)) }
        ensures settled { D.tells disk ≡ true → 0 < length (D.seen disk)
            → IfOk result (λ r. HasContents D.seen D.may_leave r.0 (contents_of r.1)) }
        ensures nothing_written { D.tells disk ≡ true → 0 < length (D.seen disk)
            → MatchResult result (λ r. Looked D.seen D.may_leave D.moment D.left_since disk r.0.disk)
            (λ r. Looked D.seen D.may_leave D.moment D.left_since disk r.0) }

        // A crash at any moment of the call leaves the frames from before it, with a loose one or without.
        ensures any_moment { (h : List (List ℕ)) (x : List ℕ) → D.tells disk ≡ true
            → MayHave (D.seen disk) (D.may_leave disk) h x
            → MatchResult result (λ r. LeavesOnly D.moment D.left_since disk r.0.disk (WithOrWithout h x))
            (λ r. LeavesOnly D.moment D.left_since disk r.0 (WithOrWithout h x)) }

        ensures damaged { (place : ℕ) → D.tells disk ≡ true → IfErr result (λ r. r.1 ≡ OpenFault.Damaged place
            → (0 < length (D.seen disk)) × IsDamagedAt (D.seen disk) place) }
        ensures nowhere_else { (place other : ℕ) → D.tells disk ≡ true → 0 < length (D.seen disk)
            → IsDamagedAt (D.seen disk) place
            → MatchResult result (λ _. ⊥) (λ r. r.1 ≡ OpenFault.Damaged other → other ≡ place) }
        ensures later { MatchResult result (λ r. D.faults disk ≤ D.faults r.0.disk)
            (λ r. D.faults disk ≤ D.faults r.0) }
        ensures failed { IfErr result (λ r. r.1 ≡ OpenFault.Disk → Rose (D.faults disk) (D.faults r.0)) }
    {
        let mut disk = disk;
        match read_or_make(alloc, &mut disk) {
            Ok((frames, end)) => {
                let loose = false;
                Ok((Journal { disk, end, loose }, frames))
            }
            Err(fault) => Err((disk, fault)),
        }
    }

    /// Appends a frame by four device calls; it allocates nothing. `settling` picks the larger room.
    ///
    /// `Full` comes if and only if the journal would be longer than 14,680,064 bytes, or 16,777,216 for a settling
    /// frame; nothing has changed then. `Disk` comes only where the disk's count of faults rose, and leaves the
    /// journal loose.
    pub fn append(&mut self, frame: &Framed, settling: bool) -> Result<(), AppendFault>
        requires ready { self.old.loose ≡ false }
        ensures told { D.tells self.new.disk ≡ D.tells self.old.disk }

        ensures appended { (h : List (List ℕ)) → D.tells self.old.disk ≡ true
            → HasContents D.seen D.may_leave self.old h
            → OnOk result (HasContents D.seen D.may_leave self.new (h ++ frame.now ∷ [])) }
        ensures may_have { (h : List (List ℕ)) → D.tells self.old.disk ≡ true
            → HasContents D.seen D.may_leave self.old h
            → MayHave (D.seen self.new.disk) (D.may_leave self.new.disk) h frame.now }

        // A crash at any moment of the call leaves the frames from before it, with the new one or without.
        ensures any_moment { (h : List (List ℕ)) → D.tells self.old.disk ≡ true
            → HasContents D.seen D.may_leave self.old h
            → LeavesOnly D.moment D.left_since self.old.disk self.new.disk (WithOrWithout h frame.now) }

        ensures end { OnOk result (self.new.end ≡ self.old.end + 5 + length frame.now) }
        ensures same_end { OnErr result (self.new.end ≡ self.old.end) }
        ensures ready { OnOk result (self.new.loose ≡ false) }
        ensures loose { IsErrOf result AppendFault.Disk → self.new.loose ≡ true }
        ensures full { IsErrOf result AppendFault.Full ↔ (room_for settling < self.old.end + 6 + length frame.now) }
        ensures full_same { IsErrOf result AppendFault.Full → self.new ≡ self.old }
        ensures later { D.faults self.old.disk ≤ D.faults self.new.disk }
        ensures failed { IsErrOf result AppendFault.Disk → Rose (D.faults self.old.disk) (D.faults self.new.disk) }
    {
        let bytes = frame.bytes();
        let len = bytes.len() as u64;
        if self.end + 1 + len > room(settling) {
            return Err(AppendFault::Full);
        }
        if write_frame(&mut self.disk, self.end, bytes).is_err() {
            self.loose = true;
            return Err(AppendFault::Disk);
        }
        self.end += len;
        Ok(())
    }

    /// Syncs the disk and reads its journal again. A blank disk, too, is damaged at 0.
    ///
    /// The faults are those of `open`. After a fault the journal is loose.
    pub fn reread(&mut self, alloc: Global) -> Result<FrameBytes, OpenFault>
        ensures told { D.tells self.new.disk ≡ D.tells self.old.disk }
        ensures ready { OnOk result (self.new.loose ≡ false) }
        ensures loose { OnErr result (self.new.loose ≡ true) }
        ensures same_end { OnErr result (self.new.end ≡ self.old.end) }
        ensures places { IfOk result (λ frames. IsRead frames self.new.end) }

        ensures settled { D.tells self.old.disk ≡ true
            → IfOk result (λ frames. HasContents D.seen D.may_leave self.new (contents_of frames)) }
        ensures kept { (h : List (List ℕ)) → D.tells self.old.disk ≡ true → StandsFor (D.seen self.old.disk) h
            → IfOk result (λ frames. contents_of frames ≡ h) }
        ensures either { (h : List (List ℕ)) (x : List ℕ) → D.tells self.old.disk ≡ true
            → MayHave (D.seen self.old.disk) (D.may_leave self.old.disk) h x
            → IfOk result (λ frames. (contents_of frames ≡ h) ⊎ (contents_of frames ≡ h ++ x ∷ [])) }
        ensures may_have { (h : List (List ℕ)) (x : List ℕ) → D.tells self.old.disk ≡ true
            → MayHave (D.seen self.old.disk) (D.may_leave self.old.disk) h x
            → MayHave (D.seen self.new.disk) (D.may_leave self.new.disk) h x }

        // A crash at any moment of the call leaves the frames from before it, with the loose one or without.
        ensures any_moment { (h : List (List ℕ)) (x : List ℕ) → D.tells self.old.disk ≡ true
            → MayHave (D.seen self.old.disk) (D.may_leave self.old.disk) h x
            → LeavesOnly D.moment D.left_since self.old.disk self.new.disk (WithOrWithout h x) }
        ensures nothing_written { D.tells self.old.disk ≡ true
            → Looked D.seen D.may_leave D.moment D.left_since self.old.disk self.new.disk }

        ensures damaged { (place : ℕ) → D.tells self.old.disk ≡ true → IsErrOf result (OpenFault.Damaged place)
            → IsDamagedAt (D.seen self.old.disk) place }
        ensures nowhere_else { (place other : ℕ) → D.tells self.old.disk ≡ true
            → IsDamagedAt (D.seen self.old.disk) place
            → MatchResult result (λ _. ⊥) (λ fault. fault ≡ OpenFault.Damaged other → other ≡ place) }
        ensures later { D.faults self.old.disk ≤ D.faults self.new.disk }
        ensures failed { IsErrOf result OpenFault.Disk → Rose (D.faults self.old.disk) (D.faults self.new.disk) }
    {
        match read_again(alloc, &mut self.disk) {
            Ok((frames, end)) => {
                self.end = end;
                self.loose = false;
                Ok(frames)
            }
            Err(fault) => {
                self.loose = true;
                Err(fault)
            }
        }
    }

    /// Fills `into` with the bytes from a place on, within the journal's frames. It allocates nothing and writes
    /// nothing: the journal is as it was, whether the reading failed or not.
    ///
    /// `Failed` comes only where the disk's count of faults rose.
    pub fn fetch(&mut self, at: u64, into: &mut [u8]) -> Result<(), Failed>
        requires inside { at + length into.old ≤ self.old.end }
        ensures told { D.tells self.new.disk ≡ D.tells self.old.disk }
        ensures bytes { D.tells self.old.disk ≡ true
            → OnOk result (into.new ≡ take (length into.old) (drop at (D.seen self.old.disk))) }
        ensures nothing_written { D.tells self.old.disk ≡ true
            → Looked D.seen D.may_leave D.moment D.left_since self.old.disk self.new.disk }
        ensures contents { (h : List (List ℕ)) → D.tells self.old.disk ≡ true
            → HasContents D.seen D.may_leave self.old h → HasContents D.seen D.may_leave self.new h }
        ensures may_have { (h : List (List ℕ)) (x : List ℕ) → D.tells self.old.disk ≡ true
            → MayHave (D.seen self.old.disk) (D.may_leave self.old.disk) h x
            → MayHave (D.seen self.new.disk) (D.may_leave self.new.disk) h x }
        ensures any_moment { (h : List (List ℕ)) (x : List ℕ) → D.tells self.old.disk ≡ true
            → MayHave (D.seen self.old.disk) (D.may_leave self.old.disk) h x
            → LeavesOnly D.moment D.left_since self.old.disk self.new.disk (WithOrWithout h x) }
        ensures end { self.new.end ≡ self.old.end }
        ensures loose { self.new.loose ≡ self.old.loose }
        ensures later { D.faults self.old.disk ≤ D.faults self.new.disk }
        ensures failed { IsErr result → Rose (D.faults self.old.disk) (D.faults self.new.disk) }
    {
        read_from(&mut self.disk, at, into)
    }

    /// The place of the journal's last gate: where the next frame begins.
    pub fn end(&self) -> u64
        ensures { result ≡ self.now.end }
    {
        self.end
    }

    /// Whether the journal has to be read again before the next append.
    pub fn is_loose(&self) -> bool
        ensures { result ≡ self.now.loose }
    {
        self.loose
    }

    /// The disk.
    pub fn close(self) -> D
        ensures { result ≡ self.disk }
    {
        self.disk
    }
}

// How long a journal may be with a frame more.
fn room(settling: bool) -> u64
    ensures { result ≡ room_for settling }
{
    if settling {
        MAX_JOURNAL
    } else {
        MAX_JOURNAL_UNSETTLED
    }
}
