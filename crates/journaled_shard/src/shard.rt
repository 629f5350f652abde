//! One shard of a platform, with its diary on a journal.
//!
//! (1) Its diary is legal for its platform, under its roster and its ring of keys, and has room on its journal, with a
//!     loose frame or without it.
//! (2) A request is decided first, with everything that it needs and signs made; then its frame is written; then its
//!     reply and its messages are handed out. So a reply rests on a frame that stands in every later crash. What it
//!     shows of a bill is looked up once the frame is written, which allocates nothing.
//! (3) After a call that failed the journal is read again before the next request is decided.
ghost use Rattle.std.specs.Prelude.{◌≡◌, ◌≢◌, ◌⊎◌, ◌&&◌, ◌<◌, ◌≤◌, [], not, true, false, List, None, Option, ℕ, length, IfErr, IfOk, IsErrOf, IsTrue, MatchResult, OnErr, OnOk};
ghost use Rattle.ebl_base.specs.Faults.{Rose};
ghost use Rattle.disk_model.specs.Disk.{LeavesOnly, Looked};
ghost use Rattle.party_roster.specs.RosterForm.{IsRoster};
ghost use Rattle.platform_requests.specs.Request.{request_view};
ghost use Rattle.platform_requests.specs.declared.reply.Reply.TheVariants as replies;
ghost use Rattle.holder_commands.specs.Command.{command_view};
ghost use Rattle.bill_diary.specs.declared.frame.Frame.{Frame};
ghost use Rattle.bill_diary.specs.History.{history, newest_first};
ghost use Rattle.bill_diary.specs.Place.{may_act_by};
ghost use Rattle.transfer_judge.specs.Legal.{IsLegal};
ghost use Rattle.transfer_judge.specs.Plan.{HasAttempts};
ghost use Rattle.transfer_core.specs.Decision.{reply_by, step_by};
ghost use Rattle.transfer_core.specs.Shard.{AreShort, is_own_party};
ghost use Rattle.platform_machine.specs.Machine.{MayBeAsked};
ghost use Rattle.journal_room.specs.Room.{HasRoom};
ghost use Rattle.journaled_diary.specs.Contents.{IsJournalOf};
ghost use Rattle.journaled_shard.specs.Opening.{IsDamagedDiary};
ghost use Rattle.platform_machine.specs.Complete.{is_failure, is_refusal};
ghost use Rattle.platform_machine.specs.Step.{with_frame};
ghost use Rattle.journaled_shard.specs.Shard.{CarriesOut, HasAttemptsOf, HasNoRoom, IsInOrder, IsJudged, IsLeftLoose, IsLegalWith, IsOfReading, IsStepOn, IsStillUnread, IsTaken, MayBeAskedOf, refusal_of, reply_for, reply_of};
ghost use Rattle.journaled_shard.specs.View.{written_view};
ghost use Rattle.journaled_shard.specs.Written.{HasDiary, HasNamesOf, IsKeptOrDropped, IsLeft, IsOnDisk, IsRead, IsStill};

use crate::opening::open;
use crate::unwritten::Unwritten;
use crate::written::Written;
use bill_diary::{Diary, Frame};
use bill_journal::OpenFault;
use disk_model::Disk;
use ebl_base::{Checksum, Items, Moment, Party, PlatformCode};
use holder_commands::Command;
use party_roster::Roster;
use pint_responses::SealFault;
use platform_machine::{refusals_change_nothing, steps_keep_a_diary_legal, steps_reply_no_failure};
use platform_requests::{Outcome, Reply, Request};
use signed_envelope::KeyRing;
use std::alloc::Global;
use std::marker::Model;
use title_register::Register;
use transfer_core::{Decision, decide, reply_now};
use transfer_judge::legal_diary_is_sound;

/// One shard of a platform on a journal.
#[derive(Drop)]
pub struct JournaledShard<D: Disk, G: KeyRing> {
    me: PlatformCode,
    roster: Roster,
    ring: G,
    written: Written<D>,
}

impl<D: Disk, G: KeyRing> Model for JournaledShard<D, G> {
    ghost use Rattle.std.specs.Prelude.{◌≡◌, None};
    ghost use Rattle.party_roster.specs.RosterForm.{IsRoster};
    ghost use Rattle.journaled_shard.specs.Shard.{IsInOrder, JournaledShardRecord};
    ghost use Rattle.journaled_shard.specs.View.{written_view};

    ghost Value = { JournaledShardRecord D G };

    ghost view = { λ s. record { me = s.me; roster = s.roster; ring = s.ring; written = written_view s.written } };

    ghost invariant = { λ s. IsRoster s.roster
        × IsInOrder D.tells D.seen D.may_leave s.roster (G.keys s.ring) s.me (written_view s.written)
        × (s.written.register.room ≡ None) };
}

impl<D: Disk, G: KeyRing> JournaledShard<D, G> {
    /// The shard of the platform `me` whose diary the disk stands for. A disk of length 0 is made a journal first;
    /// another one is synced and read, and not written.
    ///
    /// `Disk` comes only where the disk's count of faults rose. `Damaged` names the place where the disk is no journal,
    /// or the first frame that spells no record, may not follow those before it, or has no room behind them; a blank
    /// disk is never damaged. Each fault hands disk and ring back.
    pub fn open(
        alloc: Global,
        me: PlatformCode,
        roster: Roster,
        disk: D,
        ring: G,
    ) -> Result<JournaledShard<D, G>, (D, G, OpenFault)>
        requires roster { IsRoster roster }
        ensures me { IfOk result (λ s. s.me ≡ me) }
        ensures roster { IfOk result (λ s. s.roster ≡ roster) }
        ensures ring { MatchResult result (λ s. s.ring ≡ ring) (λ r. r.1 ≡ ring) }
        ensures read { IfOk result (λ s. IsRead s.written) }
        ensures legal { IfOk result (λ s. IsLegal roster (G.keys ring) me s.written.diary) }
        ensures room { IfOk result (λ s. HasRoom s.written.diary) }
        ensures blank { D.tells disk ≡ true → D.seen disk ≡ [] → IfOk result (λ s. s.written.diary ≡ []) }
        ensures stands { D.tells disk ≡ true → 0 < length (D.seen disk)
            → IfOk result (λ s. IsJournalOf (D.seen disk) s.written.diary) }
        ensures on_disk { D.tells disk ≡ true → IfOk result (λ s. IsOnDisk D.seen D.may_leave s.written) }
        ensures nothing_written { D.tells disk ≡ true → 0 < length (D.seen disk)
            → MatchResult result (λ s. Looked D.seen D.may_leave D.moment D.left_since disk s.written.journal.disk)
            (λ r. Looked D.seen D.may_leave D.moment D.left_since disk r.0) }
        ensures not_blank { (place : ℕ) → D.tells disk ≡ true → IfErr result (λ r. r.2 ≡ OpenFault.Damaged place
            → 0 < length (D.seen disk)) }
        ensures damaged { (place : ℕ) → D.tells disk ≡ true → IfErr result (λ r. r.2 ≡ OpenFault.Damaged place
            → IsDamagedDiary roster (G.keys ring) me (D.seen disk) place) }
        ensures told { MatchResult result (λ s. D.tells s.written.journal.disk ≡ D.tells disk)
            (λ r. D.tells r.0 ≡ D.tells disk) }
        ensures later { MatchResult result (λ s. D.faults disk ≤ D.faults s.written.journal.disk)
            (λ r. D.faults disk ≤ D.faults r.0) }
        ensures failed { IfErr result (λ r. r.2 ≡ OpenFault.Disk → Rose (D.faults disk) (D.faults r.0)) }
    {
        match open(alloc, &roster, &ring, me, disk) {
            Ok(written) => Ok(JournaledShard {
                me,
                roster,
                ring,
                written,
            }),
            Err((disk, fault)) => Err((disk, ring, fault)),
        }
    }

    /// Takes a request at a moment: one step of the platform's machine over the diary, whose frame is on the disk
    /// before reply and messages are handed out. Where an earlier call failed, the journal is read again first, and the
    /// frame that it left loose is kept or dropped.
    ///
    /// A command is well-formed, and so are its party and the moment; the document that it signs nests at most 126 deep
    /// (`canonical_json::nests_within`); of a bill on which it acts fewer than 4,294,967,295 entries were parted
    /// ([`JournaledShard::has_attempts`]). Every other request may hold any bytes.
    ///
    /// `Full` comes where the step's frame has no room behind the diary; it never answers what would settle a bill that
    /// is parting, since a settlement always has room. `Sign` and `Disk` come only where the count of
    /// faults of the ring and of the disk rose. `Damaged` names a frame that isn't the diary's, and never comes over a
    /// disk that tells. After each of them, after `NoMemory` and after every refusal the diary is as it was, with a
    /// loose frame kept or dropped, and nothing is sent; after `Disk` the step's frame, which has room, may be loose.
    /// Where nothing had to be read again first, the journal is untouched after all of these but `Disk`.
    pub fn take(&mut self, alloc: Global, now: Moment, request: Request) -> Outcome
        requires { MayBeAskedOf self.old.written now (request_view request) }
        ensures step { is_failure result.reply ≡ false → (h : List Frame)
            × IsKeptOrDropped self.old.written.diary self.old.written.loose h
            × IsStepOn self.old.roster (G.keys self.old.ring) self.old.me h now (request_view request) result
            self.new.written.diary }
        ensures refused { is_refusal result.reply ≡ true
            → IsKeptOrDropped self.old.written.diary self.old.written.loose self.new.written.diary
            × (result.messages ≡ []) }
        ensures untouched { self.old.written.unread ≡ false → is_refusal result.reply ≡ true
            → result.reply ≢ replies.Disk → self.new.written.journal ≡ self.old.written.journal }
        ensures full { result.reply ≡ replies.Full
            → IsKeptOrDropped self.old.written.diary self.old.written.loose self.new.written.diary
            × HasNoRoom self.old.roster (G.keys self.old.ring) self.old.me self.new.written.diary now
            (request_view request) }
        ensures disk { result.reply ≡ replies.Disk → IsStillUnread self.old.written self.new.written
            ⊎ IsLeftLoose self.old.roster (G.keys self.old.ring) self.old.me self.old.written now
            (request_view request) self.new.written }
        ensures damaged { (place : ℕ) → result.reply ≡ replies.Damaged place
            → IsStillUnread self.old.written self.new.written }
        ensures short { result.reply ≡ replies.NoMemory → IsStillUnread self.old.written self.new.written
            ⊎ IsRead self.new.written }
        ensures read { ¬ IsOfReading result.reply → IsRead self.new.written }
        ensures sign { result.reply ≡ replies.Sign → Rose (G.faults self.old.ring) (G.faults self.new.ring) }
        ensures failed { result.reply ≡ replies.Disk
            → Rose (D.faults self.old.written.journal.disk) (D.faults self.new.written.journal.disk) }
        ensures undamaged { (place : ℕ) → D.tells self.old.written.journal.disk ≡ true
            → result.reply ≡ replies.Damaged place → ⊥ }
        ensures legal { IsLegalWith self.new.roster (G.keys self.new.ring) self.new.me self.new.written.diary
            self.new.written.loose }

        // A crash at any moment of the call leaves the journal of the diary before it or after it, each with its loose
        // frame or without.
        ensures any_moment { D.tells self.old.written.journal.disk ≡ true
            → LeavesOnly D.moment D.left_since self.old.written.journal.disk self.new.written.journal.disk
            (IsLeft self.old.written self.new.written) }
        ensures on_disk { D.tells self.old.written.journal.disk ≡ true
            → IsOnDisk D.seen D.may_leave self.new.written }
        ensures me { self.new.me ≡ self.old.me }
        ensures roster { self.new.roster ≡ self.old.roster }
        ensures keys { G.keys self.new.ring ≡ G.keys self.old.ring }
        ensures told { D.tells self.new.written.journal.disk ≡ D.tells self.old.written.journal.disk }
        ensures later { G.faults self.old.ring ≤ G.faults self.new.ring }
        ensures later_disk { D.faults self.old.written.journal.disk ≤ D.faults self.new.written.journal.disk }
    {
        steps_reply_no_failure();
        refusals_change_nothing();
        take_by(
            alloc,
            &self.roster,
            &mut self.ring,
            self.me,
            &mut self.written,
            now,
            request,
        )
    }

    /// Reads the journal again where it has to be, and so finds whether the loose frame is there: it is kept or
    /// dropped. [`JournaledShard::take`] begins so. After a fault nothing has changed.
    ///
    /// The faults are those of `open`, and come only where the journal had to be read; `Damaged` never comes over a
    /// disk that tells.
    pub fn settle(&mut self, alloc: Global) -> Result<(), OpenFault>
        ensures found { OnOk result (IsKeptOrDropped self.old.written.diary self.old.written.loose
            self.new.written.diary) }
        ensures read { OnOk result (IsRead self.new.written) }
        ensures untouched { self.old.written.unread ≡ false → self.new.written.journal ≡ self.old.written.journal }
        ensures still { OnErr result (IsStillUnread self.old.written self.new.written) }
        ensures undamaged { (place : ℕ) → D.tells self.old.written.journal.disk ≡ true
            → IsErrOf result (OpenFault.Damaged place) → ⊥ }
        ensures legal { IsLegalWith self.new.roster (G.keys self.new.ring) self.new.me self.new.written.diary
            self.new.written.loose }

        // A crash at any moment of the call leaves the journal of the diary before it, with its loose frame or without.
        ensures any_moment { D.tells self.old.written.journal.disk ≡ true
            → LeavesOnly D.moment D.left_since self.old.written.journal.disk self.new.written.journal.disk
            (HasDiary self.old.written.diary self.old.written.loose) }
        ensures on_disk { D.tells self.old.written.journal.disk ≡ true
            → IsOnDisk D.seen D.may_leave self.new.written }
        ensures me { self.new.me ≡ self.old.me }
        ensures roster { self.new.roster ≡ self.old.roster }
        ensures ring { self.new.ring ≡ self.old.ring }
        ensures told { D.tells self.new.written.journal.disk ≡ D.tells self.old.written.journal.disk }
        ensures later { D.faults self.old.written.journal.disk ≤ D.faults self.new.written.journal.disk }
        ensures failed { IsErrOf result OpenFault.Disk
            → Rose (D.faults self.old.written.journal.disk) (D.faults self.new.written.journal.disk) }
    {
        self.written.settle(alloc)
    }

    /// From now on the journal has to be read again before anything rests on it.
    pub fn loosen(&mut self)
        ensures still { IsStill self.old.written self.new.written }
        ensures disk { self.new.written.journal.disk ≡ self.old.written.journal.disk }
        ensures me { self.new.me ≡ self.old.me }
        ensures roster { self.new.roster ≡ self.old.roster }
        ensures ring { self.new.ring ≡ self.old.ring }
    {
        self.written.unread = true;
    }

    /// Forgets the diary, and reads the journal again. After a fault the diary is as it was, and the journal is read
    /// before the next request is decided.
    ///
    /// The faults are those of `open`; `Damaged` never comes over a disk that tells.
    pub fn reopen(&mut self, alloc: Global) -> Result<(), OpenFault>
        ensures read { OnOk result (IsRead self.new.written) }
        ensures still { OnErr result (IsStill self.old.written self.new.written) }
        ensures stands { D.tells self.old.written.journal.disk ≡ true
            → OnOk result (IsJournalOf (D.seen self.old.written.journal.disk) self.new.written.diary) }
        ensures found { D.tells self.old.written.journal.disk ≡ true
            → OnOk result (IsKeptOrDropped self.old.written.diary self.old.written.loose self.new.written.diary) }
        ensures undamaged { (place : ℕ) → D.tells self.old.written.journal.disk ≡ true
            → IsErrOf result (OpenFault.Damaged place) → ⊥ }
        ensures legal { IsLegalWith self.new.roster (G.keys self.new.ring) self.new.me self.new.written.diary
            self.new.written.loose }

        // A crash at any moment of the call leaves the journal of the diary before it, with its loose frame or without.
        ensures any_moment { D.tells self.old.written.journal.disk ≡ true
            → LeavesOnly D.moment D.left_since self.old.written.journal.disk self.new.written.journal.disk
            (HasDiary self.old.written.diary self.old.written.loose) }
        ensures on_disk { D.tells self.old.written.journal.disk ≡ true
            → IsOnDisk D.seen D.may_leave self.new.written }
        ensures me { self.new.me ≡ self.old.me }
        ensures roster { self.new.roster ≡ self.old.roster }
        ensures ring { self.new.ring ≡ self.old.ring }
        ensures told { D.tells self.new.written.journal.disk ≡ D.tells self.old.written.journal.disk }
        ensures later { D.faults self.old.written.journal.disk ≤ D.faults self.new.written.journal.disk }
        ensures failed { IsErrOf result OpenFault.Disk
            → Rose (D.faults self.old.written.journal.disk) (D.faults self.new.written.journal.disk) }
    {
        self.written
            .reopen(alloc, &self.roster, &self.ring, self.me)
    }

    /// Whether the possessor of a bill may act here: the bill is held, and its title isn't ended. Not while the journal
    /// has to be read again.
    pub fn may_act(&self, bill: Checksum) -> bool
        ensures { result ≡ (not self.now.written.unread && may_act_by (history bill self.now.written.diary)) }
    {
        !self.written.unread && self.written.register.may_act(bill)
    }

    /// Whether one attempt more can be counted, where a command may make one, whether a loose frame is kept or dropped:
    /// what [`JournaledShard::take`] needs of it. It can, as long as the diary has fewer than 4,294,967,294 frames.
    pub fn has_attempts(&self, command: &Command) -> bool
        ensures enough { IsTrue result → HasAttemptsOf self.now.written (command_view command.now) }
        ensures few { length self.now.written.diary < 4294967294 → IsTrue result }
    {
        has_attempts(&self.written.register, command)
    }

    /// Whether a party is one of this platform that the roster knows.
    pub fn knows(&self, party: Party) -> bool
        ensures { result ≡ is_own_party self.now.me self.now.roster party }
    {
        party.platform == self.me && self.roster.knows(party)
    }

    /// What was written down: a legal diary, without a loose frame.
    pub fn diary(&self) -> &Diary
        ensures diary { result.now ≡ self.now.written.diary }
        ensures legal { IsLegal self.now.roster (G.keys self.now.ring) self.now.me self.now.written.diary }
        ensures room { HasRoom self.now.written.diary }
    {
        self.written.register.diary()
    }

    /// Whether the journal has to be read again before the next request is decided. Where it hasn't, nothing is loose.
    pub fn is_unread(&self) -> bool
        ensures unread { result ≡ self.now.written.unread }
        ensures nothing_loose { result ≡ false → self.now.written.loose ≡ None }
    {
        self.written.unread
    }

    /// Hands out the disk and the ring. A disk that tells reads as the journal of the diary, with its loose frame or
    /// without, and so does whatever a crash leaves.
    pub fn close(self) -> (D, G)
        ensures parts { result ≡ (self.written.journal.disk, self.ring) }
        ensures on_disk { D.tells self.written.journal.disk ≡ true → IsOnDisk D.seen D.may_leave self.written }
    {
        (self.written.close(), self.ring)
    }

    /// Hands out the disk, the ring and the diary: what [`JournaledShard::close`] and [`JournaledShard::diary`] give.
    pub fn close_whole(self) -> (D, G, Diary)
        ensures disk { result.0 ≡ self.written.journal.disk }
        ensures ring { result.1 ≡ self.ring }
        ensures diary { result.2 ≡ self.written.diary }
        ensures on_disk { D.tells self.written.journal.disk ≡ true → IsOnDisk D.seen D.may_leave self.written }
        ensures legal { IsLegal self.roster (G.keys self.ring) self.me self.written.diary }
        ensures room { HasRoom self.written.diary }
    {
        let (disk, diary) = self.written.close_whole();
        (disk, self.ring, diary)
    }
}

// Whether two attempts more can be counted, where a command may make one: a loose frame may count as the other.
#[tactic(auto, using(crate::proofs::RegisterLemmas::partings))]
fn has_attempts(register: &Register, command: &Command) -> bool
    ensures enough { (loose : Option Frame) (found : List Frame) → IsTrue result
        → IsKeptOrDropped register.now.diary loose found
        → HasAttempts (command_view command.now) (newest_first found) }
    ensures few { length register.now.diary < 4294967294 → IsTrue result }
{
    match command {
        Command::Act { bill, .. } => register.partings(*bill) < u32::MAX as usize - 1,
        Command::Sign { .. } | Command::Attach { .. } => true,
    }
}

// Takes a request: where the journal has to be read again, it is read first.
fn take_by<D: Disk, G: KeyRing>(
    alloc: Global,
    roster: &Roster,
    ring: &mut G,
    me: PlatformCode,
    written: &mut Written<D>,
    now: Moment,
    request: Request,
) -> Outcome
    requires form { IsRoster roster.now }
    requires order { IsInOrder D.tells D.seen D.may_leave roster.now (G.keys ring.old) me (written_view written.old) }
    requires asked { MayBeAskedOf (written_view written.old) now (request_view request) }
    requires room { written.old.register.room ≡ None }
    ensures taken { IsTaken roster.now (G.keys ring.old) me (written_view written.old) now (request_view request) result
        (written_view written.new) }
    ensures order { IsInOrder D.tells D.seen D.may_leave roster.now (G.keys ring.new) me (written_view written.new) }
    ensures full { result.reply ≡ replies.Full
        → IsKeptOrDropped written.old.register.diary written.old.loose written.new.register.diary
        × HasNoRoom roster.now (G.keys ring.old) me written.new.register.diary now (request_view request) }
    ensures sign { result.reply ≡ replies.Sign → Rose (G.faults ring.old) (G.faults ring.new) }
    ensures failed { result.reply ≡ replies.Disk
        → Rose (D.faults written.old.journal.disk) (D.faults written.new.journal.disk) }
    ensures undamaged { (place : ℕ) → D.tells written.old.journal.disk ≡ true → result.reply ≡ replies.Damaged place
        → ⊥ }
    ensures any_moment { D.tells written.old.journal.disk ≡ true
        → LeavesOnly D.moment D.left_since written.old.journal.disk written.new.journal.disk
        (IsLeft (written_view written.old) (written_view written.new)) }
    ensures told { D.tells written.new.journal.disk ≡ D.tells written.old.journal.disk }
    ensures keys { G.keys ring.new ≡ G.keys ring.old }
    ensures later { G.faults ring.old ≤ G.faults ring.new }
    ensures later_disk { D.faults written.old.journal.disk ≤ D.faults written.new.journal.disk }
    ensures room { written.new.register.room ≡ None }
{
    steps_keep_a_diary_legal();
    steps_reply_no_failure();
    match written.settle(alloc) {
        Ok(()) => judge_by(alloc, roster, ring, me, written, now, request),
        Err(fault) => refusal(alloc, reply_for(fault)),
    }
}

// Takes a request where the journal was read: what is decided is carried out.
fn judge_by<D: Disk, G: KeyRing>(
    alloc: Global,
    roster: &Roster,
    ring: &mut G,
    me: PlatformCode,
    written: &mut Written<D>,
    now: Moment,
    request: Request,
) -> Outcome
    requires form { IsRoster roster.now }
    requires legal { IsLegal roster.now (G.keys ring.old) me written.old.register.diary }
    requires read { IsRead (written_view written.old) }
    requires asked { MayBeAsked written.old.register.diary now (request_view request) }
    requires room { written.old.register.room ≡ None }
    ensures judged { IsJudged roster.now (G.keys ring.old) me (written_view written.old) now (request_view request)
        result (written_view written.new) }
    ensures named { HasNamesOf (written_view written.old) → HasNamesOf (written_view written.new) }
    ensures on_disk { D.tells written.old.journal.disk ≡ true → IsOnDisk D.seen D.may_leave (written_view written.old)
        → IsOnDisk D.seen D.may_leave (written_view written.new) }
    ensures any_moment { D.tells written.old.journal.disk ≡ true
        → IsOnDisk D.seen D.may_leave (written_view written.old)
        → LeavesOnly D.moment D.left_since written.old.journal.disk written.new.journal.disk
        (IsLeft (written_view written.old) (written_view written.new)) }
    ensures sign { result.reply ≡ replies.Sign → Rose (G.faults ring.old) (G.faults ring.new) }
    ensures failed { result.reply ≡ replies.Disk
        → Rose (D.faults written.old.journal.disk) (D.faults written.new.journal.disk) }
    ensures undamaged { (place : ℕ) → result.reply ≡ replies.Damaged place → ⊥ }
    ensures told { D.tells written.new.journal.disk ≡ D.tells written.old.journal.disk }
    ensures keys { G.keys ring.new ≡ G.keys ring.old }
    ensures later { G.faults ring.old ≤ G.faults ring.new }
    ensures later_disk { D.faults written.old.journal.disk ≤ D.faults written.new.journal.disk }
    ensures room { written.new.register.room ≡ None }
{
    legal_diary_is_sound();
    steps_keep_a_diary_legal();
    steps_reply_no_failure();
    match decide(alloc, roster, ring, me, &written.register, now, request) {
        Ok(decision) => carry_out(alloc, written, decision),
        Err(SealFault::Sign) => refusal(alloc, Reply::Sign),
        Err(SealFault::NoMemory) => refusal(alloc, Reply::NoMemory),
    }
}

// Writes the frame that was decided, if there is one, and hands out the reply and the messages.
fn carry_out<D: Disk>(alloc: Global, written: &mut Written<D>, decision: Decision) -> Outcome
    requires read { IsRead (written_view written.old) }
    requires short { AreShort (with_frame written.old.register.diary decision.frame) }
    requires room { written.old.register.room ≡ None }
    ensures out { CarriesOut (written_view written.old) (step_by written.old.register.diary decision) result
        (written_view written.new) }
    ensures named { HasNamesOf (written_view written.old) → HasNamesOf (written_view written.new) }
    ensures on_disk { D.tells written.old.journal.disk ≡ true → IsOnDisk D.seen D.may_leave (written_view written.old)
        → IsOnDisk D.seen D.may_leave (written_view written.new) }
    ensures any_moment { D.tells written.old.journal.disk ≡ true
        → IsOnDisk D.seen D.may_leave (written_view written.old)
        → LeavesOnly D.moment D.left_since written.old.journal.disk written.new.journal.disk
        (IsLeft (written_view written.old) (written_view written.new)) }
    ensures failed { is_failure (reply_by (with_frame written.old.register.diary decision.frame) decision.reply) ≡ false
        → result.reply ≡ replies.Disk
        → Rose (D.faults written.old.journal.disk) (D.faults written.new.journal.disk) }
    ensures told { D.tells written.new.journal.disk ≡ D.tells written.old.journal.disk }
    ensures later { D.faults written.old.journal.disk ≤ D.faults written.new.journal.disk }
    ensures room { written.new.register.room ≡ None }
{
    let Decision {
        frame,
        reply,
        messages,
    } = decision;
    let Some(frame) = frame else {
        return Outcome {
            reply: reply_now(&written.register, reply),
            messages,
        };
    };
    match written.write(alloc, frame) {
        Ok(()) => Outcome {
            reply: reply_now(&written.register, reply),
            messages,
        },
        Err(why) => refusal(alloc, reply_to(why)),
    }
}

fn reply_to(why: Unwritten) -> Reply
    ensures { result ≡ reply_of why }
{
    match why {
        Unwritten::Full => Reply::Full,
        Unwritten::Disk => Reply::Disk,
        Unwritten::NoMemory => Reply::NoMemory,
    }
}

/// How it is replied that the journal could not be read again.
pub fn reply_for(fault: OpenFault) -> Reply
    ensures { result ≡ reply_for fault }
{
    match fault {
        OpenFault::Disk => Reply::Disk,
        OpenFault::Damaged(place) => Reply::Damaged(place),
        OpenFault::NoMemory => Reply::NoMemory,
    }
}

// A reply without messages.
fn refusal(alloc: Global, reply: Reply) -> Outcome
    ensures { result ≡ refusal_of reply }
{
    Outcome {
        reply,
        messages: Items::new(alloc),
    }
}
