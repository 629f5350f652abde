//! What a disk stands for, as a shard finds it when it is opened and when it is read again from nothing.
ghost use Rattle.std.specs.Prelude.{◌≡◌, ◌<◌, ◌≤◌, [], true, ℕ, length, IfErr, IfOk, IsErrOf, MatchResult, None, OnErr, OnOk};
ghost use Rattle.ebl_base.specs.Faults.{Rose};
ghost use Rattle.disk_model.specs.Disk.{LeavesOnly, Looked};
ghost use Rattle.transfer_judge.specs.Legal.{IsLegal};
ghost use Rattle.journaled_diary.specs.Contents.{IsJournalOf};
ghost use Rattle.journal_room.specs.Room.{HasRoom};
ghost use Rattle.journaled_shard.specs.Opening.{IsDamagedDiary, fault_of};
ghost use Rattle.journaled_shard.specs.Shard.{HasRoomWith, IsLegalWith};
ghost use Rattle.journaled_shard.specs.View.{written_view};
ghost use Rattle.journaled_shard.specs.Written.{HasDiary, HasNamesOf, IsKeptOrDropped, IsOnDisk, IsRead, IsStill};

use crate::written::{Written, forget};
use bill_journal::{Journal, OpenFault, no_journal_is_damaged};
use disk_model::Disk;
use ebl_base::PlatformCode;
use journaled_diary::{
    DiaryFault, contents_are_one_diary, diary_is_refused_nowhere, read_register,
};
use party_roster::Roster;
use record_bytes::frame_of_a_sound_diary_has_a_spelling;
use signed_envelope::KeyRing;
use std::alloc::Global;
use transfer_judge::legal_diary_is_sound;

// The legal diary of which a disk is the journal; a blank disk is made one without frames.
pub(crate) fn open<D: Disk, G: KeyRing>(
    alloc: Global,
    roster: &Roster,
    ring: &G,
    me: PlatformCode,
    disk: D,
) -> Result<Written<D>, (D, OpenFault)>
    ensures told { MatchResult result (λ w. D.tells w.journal.disk ≡ D.tells disk) (λ r. D.tells r.0 ≡ D.tells disk) }
    ensures read { IfOk result (λ w. IsRead (written_view w)) }
    ensures legal { IfOk result (λ w. IsLegal roster.now (G.keys ring.now) me w.register.diary) }
    ensures has_room { IfOk result (λ w. HasRoom w.register.diary) }
    ensures named { IfOk result (λ w. HasNamesOf (written_view w)) }
    ensures blank { D.tells disk ≡ true → D.seen disk ≡ [] → IfOk result (λ w. w.register.diary ≡ []) }
    ensures stands { D.tells disk ≡ true → 0 < length (D.seen disk)
        → IfOk result (λ w. IsJournalOf (D.seen disk) w.register.diary) }
    ensures on_disk { D.tells disk ≡ true → IfOk result (λ w. IsOnDisk D.seen D.may_leave (written_view w)) }
    ensures nothing_written { D.tells disk ≡ true → 0 < length (D.seen disk)
        → MatchResult result (λ w. Looked D.seen D.may_leave D.moment D.left_since disk w.journal.disk)
        (λ r. Looked D.seen D.may_leave D.moment D.left_since disk r.0) }
    ensures not_blank { (place : ℕ) → D.tells disk ≡ true → IfErr result (λ r. r.1 ≡ OpenFault.Damaged place
        → 0 < length (D.seen disk)) }
    ensures damaged { (place : ℕ) → D.tells disk ≡ true → IfErr result (λ r. r.1 ≡ OpenFault.Damaged place
        → IsDamagedDiary roster.now (G.keys ring.now) me (D.seen disk) place) }
    ensures later { MatchResult result (λ w. D.faults disk ≤ D.faults w.journal.disk)
        (λ r. D.faults disk ≤ D.faults r.0) }
    ensures failed { IfErr result (λ r. r.1 ≡ OpenFault.Disk → Rose (D.faults disk) (D.faults r.0)) }
    ensures room { IfOk result (λ w. w.register.room ≡ None) }
{
    let (journal, frames) = match Journal::open(alloc, disk) {
        Ok(opened) => opened,
        Err(refused) => return Err(refused),
    };
    match read_register(alloc, roster, ring, me, &frames) {
        Ok(register) => Ok(Written {
            register,
            loose: None,
            unread: false,
            journal,
        }),
        Err(fault) => Err((journal.close(), fault_of(fault))),
    }
}

impl<D: Disk> Written<D> {
    // Forgets the diary, and reads the journal again as `open` does. After a fault nothing has changed, and the journal
    // has to be read before anything rests on it.
    pub(crate) fn reopen<G: KeyRing>(
        &mut self,
        alloc: Global,
        roster: &Roster,
        ring: &G,
        me: PlatformCode,
    ) -> Result<(), OpenFault>
        requires legal { IsLegalWith roster.now (G.keys ring.now) me self.old.register.diary self.old.loose }
        requires has_room { HasRoomWith self.old.register.diary self.old.loose }
        requires named { HasNamesOf (written_view self.old) }
        requires room { self.old.register.room ≡ None }
        ensures told { D.tells self.new.journal.disk ≡ D.tells self.old.journal.disk }
        ensures read { OnOk result (IsRead (written_view self.new)) }
        ensures legal { OnOk result (IsLegal roster.now (G.keys ring.now) me self.new.register.diary) }
        ensures has_room { OnOk result (HasRoom self.new.register.diary) }
        ensures still { OnErr result (IsStill (written_view self.old) (written_view self.new)) }
        ensures named { HasNamesOf (written_view self.new) }
        ensures found { D.tells self.old.journal.disk ≡ true → IsOnDisk D.seen D.may_leave (written_view self.old)
            → OnOk result (IsKeptOrDropped self.old.register.diary self.old.loose self.new.register.diary) }
        ensures stands { D.tells self.old.journal.disk ≡ true → IsOnDisk D.seen D.may_leave (written_view self.old)
            → OnOk result (IsJournalOf (D.seen self.old.journal.disk) self.new.register.diary) }
        ensures on_disk { D.tells self.old.journal.disk ≡ true → IsOnDisk D.seen D.may_leave (written_view self.old)
            → IsOnDisk D.seen D.may_leave (written_view self.new) }
        ensures any_moment { D.tells self.old.journal.disk ≡ true
            → IsOnDisk D.seen D.may_leave (written_view self.old)
            → LeavesOnly D.moment D.left_since self.old.journal.disk self.new.journal.disk
            (HasDiary self.old.register.diary self.old.loose) }
        ensures undamaged { (place : ℕ) → D.tells self.old.journal.disk ≡ true
            → IsOnDisk D.seen D.may_leave (written_view self.old) → IsErrOf result (OpenFault.Damaged place) → ⊥ }
        ensures later { D.faults self.old.journal.disk ≤ D.faults self.new.journal.disk }
        ensures failed { IsErrOf result OpenFault.Disk
            → Rose (D.faults self.old.journal.disk) (D.faults self.new.journal.disk) }
        ensures room { self.new.register.room ≡ None }
    {
        legal_diary_is_sound();
        frame_of_a_sound_diary_has_a_spelling();
        contents_are_one_diary();
        diary_is_refused_nowhere();
        no_journal_is_damaged();
        self.unread = true;
        let frames = self.journal.reread(alloc)?;
        match read_register(alloc, roster, ring, me, &frames) {
            Ok(register) => {
                self.register = register;
                forget(&mut self.loose);
                self.unread = false;
                Ok(())
            }
            Err(fault) => Err(fault_of(fault)),
        }
    }
}

fn fault_of(fault: DiaryFault) -> OpenFault
    ensures { result ≡ fault_of fault }
{
    match fault {
        DiaryFault::Refused(place) => OpenFault::Damaged(place),
        DiaryFault::NoMemory => OpenFault::NoMemory,
    }
}
