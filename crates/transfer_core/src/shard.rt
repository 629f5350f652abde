//! One shard of a platform, with its diary in memory.
//!
//! (1) Its diary is legal for its platform, under its roster and its ring of keys.
//! (2) Its register has this diary, and between two requests no room for a frame.
//! (3) A request is decided first, with everything that it needs and signs made; then the memory that its frame needs
//!     is taken, and the frame is added; then reply and messages are handed out. So where memory runs out or the ring
//!     fails, nothing has changed.
ghost use Rattle.std.specs.Prelude.{◌≡◌, ◌↔◌, ◌≤◌, [], true, false, IsTrue, None, OnErr, OnOk};
ghost use Rattle.ebl_base.specs.Faults.{Rose};
ghost use Rattle.party_roster.specs.RosterForm.{IsRoster};
ghost use Rattle.holder_commands.specs.Command.{command_view};
ghost use Rattle.bill_diary.specs.History.{history, newest_first};
ghost use Rattle.bill_diary.specs.Place.{may_act_by};
ghost use Rattle.platform_requests.specs.Request.{request_view};
ghost use Rattle.platform_requests.specs.declared.reply.Reply.TheVariants as replies;
ghost use Rattle.transfer_judge.specs.Legal.{IsLegal};
ghost use Rattle.transfer_judge.specs.Plan.{HasAttempts};
ghost use Rattle.platform_machine.specs.Complete.{is_failure, is_refusal};
ghost use Rattle.platform_machine.specs.Machine.{MayBeAsked};
ghost use Rattle.platform_machine.specs.Step.{with_frame};
ghost use Rattle.transfer_core.specs.Decision.{step_by};
ghost use Rattle.transfer_core.specs.Shard.{AreShort, IsCarriedOut, IsStepped, IsUnchanged, is_of_disks, is_own_party};

use crate::deciding::decide;
use crate::decision::Decision;
use crate::replying::reply_now;
use bill_diary::{Diary, Frame};
use ebl_base::{Checksum, Items, Moment, NoMemory, Party, PlatformCode};
use holder_commands::Command;
use party_roster::Roster;
use pint_responses::SealFault;
use platform_machine::{refusals_change_nothing, steps_keep_a_diary_legal, steps_reply_no_failure};
use platform_requests::{Outcome, Reply, Request};
use signed_envelope::KeyRing;
use std::alloc::Global;
use std::marker::Model;
use title_register::Register;
use transfer_judge::{has_attempts, legal_diary_is_sound};

/// One shard of a platform: what it wrote down of its bills, and how it takes requests about them.
#[derive(Drop)]
pub struct Shard<G: KeyRing> {
    me: PlatformCode,
    roster: Roster,
    ring: G,
    register: Register,
}

impl<G: KeyRing> Model for Shard<G> {
    ghost use Rattle.std.specs.Prelude.{◌≡◌, None};
    ghost use Rattle.party_roster.specs.RosterForm.{IsRoster};
    ghost use Rattle.transfer_judge.specs.Legal.{IsLegal};
    ghost use Rattle.transfer_core.specs.Shard.{ShardRecord};

    ghost Value = { ShardRecord G };

    ghost view = { λ s. record { me = s.me; roster = s.roster; ring = s.ring; diary = s.register.diary } };

    ghost invariant = { λ s.
        IsRoster s.roster × IsLegal s.roster (G.keys s.ring) s.me s.register.diary × (s.register.room ≡ None) };
}

impl<G: KeyRing> Shard<G> {
    /// A shard of the platform `me` that has written nothing down.
    pub fn new(alloc: Global, me: PlatformCode, roster: Roster, ring: G) -> Shard<G>
        requires { IsRoster roster }
        ensures me { result.me ≡ me }
        ensures roster { result.roster ≡ roster }
        ensures ring { result.ring ≡ ring }
        ensures diary { result.diary ≡ [] }
    {
        Shard {
            me,
            roster,
            ring,
            register: Register::new(alloc),
        }
    }

    /// Takes a request at a moment: one step of the platform's machine over the diary, which grows by the step's frame.
    ///
    /// A command is well-formed, and so are its party and the moment; the document that it signs nests at most 126 deep
    /// (`canonical_json::nests_within`); of a bill on which it acts fewer than 4,294,967,295 entries were parted
    /// ([`Shard::has_attempts`]). Every other request may hold any bytes, and come at any moment.
    ///
    /// `Sign` comes only where the ring's count of faults rose. After it, after `NoMemory` and after every refusal the
    /// diary is as it was, and nothing is sent. `Full`, `Disk` and `Damaged` never come.
    pub fn take(&mut self, alloc: Global, now: Moment, request: Request) -> Outcome
        requires { MayBeAsked self.old.diary now (request_view request) }
        ensures step { is_failure result.reply ≡ false → IsStepped self.old.roster (G.keys self.old.ring) self.old.me
            self.old.diary now (request_view request) result self.new.diary }
        ensures refused { is_refusal result.reply ≡ true → IsUnchanged self.old.diary result self.new.diary }
        ensures sign { result.reply ≡ replies.Sign → Rose (G.faults self.old.ring) (G.faults self.new.ring) }
        ensures no_disk { is_of_disks result.reply ≡ false }
        ensures legal { IsLegal self.new.roster (G.keys self.new.ring) self.new.me self.new.diary }
        ensures me { self.new.me ≡ self.old.me }
        ensures roster { self.new.roster ≡ self.old.roster }
        ensures keys { G.keys self.new.ring ≡ G.keys self.old.ring }
        ensures later { G.faults self.old.ring ≤ G.faults self.new.ring }
    {
        take_by(
            alloc,
            &self.roster,
            &mut self.ring,
            self.me,
            &mut self.register,
            now,
            request,
        )
    }

    /// Whether the possessor of a bill may act here: the bill is held, and its title isn't ended.
    pub fn may_act(&self, bill: Checksum) -> bool
        ensures { result ≡ may_act_by (history bill self.now.diary) }
    {
        self.register.may_act(bill)
    }

    /// Whether one attempt more can be counted, where a command may make one: what [`Shard::take`] needs of it.
    pub fn has_attempts(&self, command: &Command) -> bool
        ensures { IsTrue result ↔ HasAttempts (command_view command.now) (newest_first self.now.diary) }
    {
        has_attempts(&self.register, command)
    }

    /// Whether a party is one of this platform that the roster knows.
    pub fn knows(&self, party: Party) -> bool
        ensures { result ≡ is_own_party self.now.me self.now.roster party }
    {
        party.platform == self.me && self.roster.knows(party)
    }

    /// What was written down: a legal diary.
    pub fn diary(&self) -> &Diary
        ensures diary { result.now ≡ self.now.diary }
        ensures legal { IsLegal self.now.roster (G.keys self.now.ring) self.now.me self.now.diary }
    {
        self.register.diary()
    }

    /// Hands out the ring.
    pub fn close(self) -> G
        ensures { result ≡ self.ring }
    {
        self.ring
    }
}

// Takes a request over a register: what is decided is carried out.
fn take_by<G: KeyRing>(
    alloc: Global,
    roster: &Roster,
    ring: &mut G,
    me: PlatformCode,
    register: &mut Register,
    now: Moment,
    request: Request,
) -> Outcome
    requires form { IsRoster roster.now }
    requires legal { IsLegal roster.now (G.keys ring.old) me register.old.diary }
    requires asked { MayBeAsked register.old.diary now (request_view request) }
    requires room { register.old.room ≡ None }
    ensures step { is_failure result.reply ≡ false → IsStepped roster.now (G.keys ring.old) me register.old.diary now
        (request_view request) result register.new.diary }
    ensures refused { is_refusal result.reply ≡ true → IsUnchanged register.old.diary result register.new.diary }
    ensures sign { result.reply ≡ replies.Sign → Rose (G.faults ring.old) (G.faults ring.new) }
    ensures no_disk { is_of_disks result.reply ≡ false }
    ensures legal { IsLegal roster.now (G.keys ring.new) me register.new.diary }
    ensures keys { G.keys ring.new ≡ G.keys ring.old }
    ensures later { G.faults ring.old ≤ G.faults ring.new }
    ensures room { register.new.room ≡ None }
{
    legal_diary_is_sound();
    steps_keep_a_diary_legal();
    steps_reply_no_failure();
    refusals_change_nothing();
    match decide(alloc, roster, ring, me, &*register, now, request) {
        Ok(decision) => carry_out(alloc, register, decision),
        Err(SealFault::Sign) => refusal(alloc, Reply::Sign),
        Err(SealFault::NoMemory) => refusal(alloc, Reply::NoMemory),
    }
}

// Adds the frame that was decided, and hands out the reply and the messages. Taking the memory for the frame is the
// last thing that can fail.
fn carry_out(alloc: Global, register: &mut Register, decision: Decision) -> Outcome
    requires room { register.old.room ≡ None }
    requires short { AreShort (with_frame register.old.diary decision.frame) }
    ensures done { IsCarriedOut register.old.diary (step_by register.old.diary decision) result register.new.diary }
    ensures room { register.new.room ≡ None }
{
    let Decision {
        frame,
        reply,
        messages,
    } = decision;
    match add(alloc, register, frame) {
        Ok(()) => Outcome {
            reply: reply_now(&*register, reply),
            messages,
        },
        Err(NoMemory) => refusal(alloc, Reply::NoMemory),
    }
}

// Adds a frame to a register, if there is one: takes the memory that it needs, and then adds it.
fn add(alloc: Global, register: &mut Register, frame: Option<Frame>) -> Result<(), NoMemory>
    requires { register.old.room ≡ None }
    ensures ok { OnOk result (register.new.diary ≡ with_frame register.old.diary frame) }
    ensures err { OnErr result (register.new.diary ≡ register.old.diary) }
    ensures room { register.new.room ≡ None }
{
    let Some(frame) = frame else {
        return Ok(());
    };
    match register.reserve(alloc, &frame) {
        Ok(()) => {
            register.add(frame);
            Ok(())
        }
        Err(fault) => {
            // A call, as in `answer_with`.
            drop(frame);
            Err(fault)
        }
    }
}

// A reply without messages.
fn refusal(alloc: Global, reply: Reply) -> Outcome
    ensures { result ≡ record { reply = reply; messages = [] } }
{
    Outcome {
        reply,
        messages: Items::new(alloc),
    }
}
