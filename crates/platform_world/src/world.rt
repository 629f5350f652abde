//! The world of a script: its platforms' shards, what was sent, the bills that the script signed, and the fates of its
//! events.
//!
//! (1) Each shard has at most as many frames as there are fates, its loose frame included; what was sent is between
//!     platforms of the roster, and the bills that were signed are well-formed. So whatever a line asks may be asked.
ghost use Rattle.std.specs.Prelude.{◌≡◌, ◌≤◌, ◌+◌, ◌++◌, ◌<◌, [], true, IfOk, OnErr, OnOk, length, map, reverse};
ghost use mathlib.Core.List.{IsPrefix};
ghost use Rattle.world_script.specs.Event.{event_view};
ghost use Rattle.world_script.specs.Form.{IsEvent};
ghost use Rattle.party_roster.specs.RosterRecord.{has_platform};
ghost use Rattle.platform_requests.specs.Request.{request_view};
ghost use Rattle.answer_lines.specs.Lines.{IsWritable};
ghost use Rattle.answer_lines.specs.declared.answer.Answer.TheVariants.{Replied};
ghost use Rattle.world_events.specs.Happening.{asking_view, asks, comes_to, starts_again};
ghost use Rattle.platform_world.specs.Run.{bill_line_in, bill_lines, bill_lines_from};
ghost use Rattle.platform_world.specs.Machine.{AreForListed};
ghost use Rattle.platform_world.specs.Platforms.{AllHold};
ghost use Rattle.world_events.specs.Script.{IsNested, names_listed};
ghost use Rattle.platform_world.specs.Standing.{standing_in};
ghost use Rattle.platform_world.specs.State.{AreFresh, HasHappened, IsAnswered, IsCut, IsFollowed, IsPathBetweenListed, IsStepped, MayAsk, bill_by, is_sign, world_of};
ghost use Rattle.platform_world.specs.Step.{IsAt, start_answer};
ghost use Rattle.platform_world.specs.World.{opening};

use crate::fate::{Fate, FateEnd, FateList};
use crate::machine::Machine;
use crate::platforms::Platforms;
use answer_lines::{Answer, Parcel};
use bill_diary::DiaryIndex;
use bill_lines::{Standing, bill_line, bill_standing};
use ebl_base::{ByteList, Checksum, Items, Moment, NoMemory, PlatformCode};
use holder_commands::Command;
use party_roster::Roster;
use platform_requests::{Outcome, Reply, Request, SHARDS, shard_of};
use std::alloc::Global;
use std::marker::Model;
use world_events::{
    Asking, Happening, ReplyPath, SignedBills, comes_to, line_of, parcels_of, send, sign,
};
use world_script::Event;

/// The world of a script.
#[derive(Drop)]
pub struct World<M: Machine> {
    platforms: Platforms<M>,
    sent: Vec<Parcel>,
    signed: SignedBills,
    fates: Vec<Fate>,
}

impl<M: Machine> Model for World<M> {
    ghost use Rattle.std.specs.Prelude.{length};
    ghost use Rattle.platform_world.specs.State.{IsReached, WorldState, world_of};

    ghost Value = { WorldState M M.Rack };

    ghost view = { λ s. record {
      platforms = s.platforms;
      sent = s.sent.items;
      signed = s.signed;
      fates = s.fates.items;
    } };

    ghost invariant = { λ s. IsReached (world_of M.seen (record {
      platforms = s.platforms;
      sent = s.sent.items;
      signed = s.signed;
      fates = s.fates.items;
    })) (length s.fates.items) };
}

impl<M: Machine> World<M> {
    /// The world before the first event, of platforms whose shards have written nothing.
    pub fn new(alloc: Global, platforms: Platforms<M>) -> World<M>
        requires fresh { AreFresh M.seen platforms.shards }
        ensures platforms { result.platforms ≡ platforms }
        ensures sent { result.sent ≡ [] }
        ensures signed { result.signed ≡ [] }
        ensures fates { result.fates ≡ [] }
        ensures opening { world_of M.seen result
            ≡ opening platforms.roster (map (λ m. (M.seen m).keys) platforms.shards) }
    {
        World {
            platforms,
            sent: Vec::new(alloc),
            signed: SignedBills::new(alloc),
            fates: Vec::new(alloc),
        }
    }

    /// Gives back all racks in their order, and the fates of all events. Each disk reads as the journal of its shard's
    /// diary, with its loose frame or without, and so does whatever a crash leaves. It allocates nothing.
    pub fn close(self) -> (Vec<M::Rack>, FateList)
        ensures racks { result.0.items ≡ map M.rack self.platforms.shards ++ reverse self.platforms.spare }
        ensures hold { AllHold M.holds M.rack M.seen self.platforms.shards }
        ensures fates { result.1 ≡ self.fates }
    {
        (self.platforms.close(), FateList::from_vec(self.fates))
    }

    /// The roster.
    pub fn roster(&self) -> &Roster
        ensures { result.now ≡ self.now.platforms.roster }
    {
        self.platforms.roster()
    }

    /// A line for each bill that the script signed, in their order.
    ///
    /// It goes once over the diaries of all shards, and then for each bill a few times over the bill's own records.
    pub fn bill_lines(&self, alloc: Global) -> Result<ByteList, NoMemory>
        ensures { IfOk result (λ text. text ≡ bill_lines (world_of M.seen self.now)) }
    {
        let indices = self.platforms.indices(alloc)?;
        self.lines_of(alloc, indices.as_slice(), self.signed.as_slice())
    }

    // A line for each of these bills, numbered from 1, by the indices of all shards' diaries.
    fn lines_of(
        &self,
        alloc: Global,
        indices: &[DiaryIndex],
        bills: &[Checksum],
    ) -> Result<ByteList, NoMemory>
        requires { indices.now ≡ map (λ m. (M.seen m).diary) self.now.platforms.shards }
        ensures { IfOk result (λ text. text ≡ bill_lines_from (world_of M.seen self.now) 1 bills.now) }
    {
        let mut text = ByteList::new(alloc);
        for (position, bill) in bills.iter().enumerate() {
            let line = self.bill_line(alloc, indices, position as u64 + 1, *bill)?;
            text.extend_from_slice(line.as_slice())?;
        }
        Ok(text)
    }

    // The line of a bill of this number.
    fn bill_line(
        &self,
        alloc: Global,
        indices: &[DiaryIndex],
        number: u64,
        bill: Checksum,
    ) -> Result<ByteList, NoMemory>
        requires { indices.now ≡ map (λ m. (M.seen m).diary) self.now.platforms.shards }
        ensures { IfOk result (λ line. line ≡ bill_line_in (world_of M.seen self.now) number bill) }
    {
        let diaries = self.platforms.diaries_of(alloc, Some(indices), bill)?;
        let settled = self.platforms.settled_for(alloc, bill)?;
        bill_line(alloc, number, bill, diaries.as_slice(), settled.as_slice())
    }

    /// How many messages were sent.
    pub fn sent_count(&self) -> usize
        ensures { result ≡ length self.now.sent }
    {
        self.sent.len()
    }

    /// The bills that the script signed, in their order.
    pub fn signed(&self) -> &[Checksum]
        ensures { result.now ≡ self.now.signed }
    {
        self.signed.as_slice()
    }

    /// How a bill stands, as its line says it; no line is written. It goes over the diaries of the bill's shards a few
    /// times.
    pub fn standing(&self, alloc: Global, bill: Checksum) -> Result<Standing, NoMemory>
        ensures { IfOk result (λ standing. standing ≡ standing_in (world_of M.seen self.now) bill) }
    {
        let diaries = self.platforms.diaries_of(alloc, None, bill)?;
        bill_standing(alloc, bill, diaries.as_slice())
    }

    /// Takes an event of a line (`event_in`), and answers it by its line. The world keeps its fate. Its condition,
    /// beside what `event_in` promises of an event, is that fewer than 4,294,967,295 events have a fate.
    ///
    /// `DISK` and `SIGN` come only where a disk and a ring failed: its count of faults rose. Out of memory, the event
    /// has a fate or none, and the platforms are those before it, or those after the whole of it by that fate. What was
    /// sent and signed before stands; what it sends and signs itself may be missing then.
    pub fn step(&mut self, alloc: Global, event: Event) -> Result<ByteList, NoMemory>
        requires form { IsEvent (event_view event) }
        requires nests { IsNested (event_view event) }
        requires listed { names_listed self.old.platforms.roster (event_view event) ≡ true }
        requires few { length self.old.fates < 4294967295 }
        ensures ok { IfOk result (λ line. IsAnswered M.seen M.faults self.old (event_view event) line self.new) }
        ensures short { OnErr result (IsCut M.seen M.faults self.old
            (comes_to self.old.signed self.old.sent (event_view event)) self.new) }
        ensures roster { self.new.platforms.roster ≡ self.old.platforms.roster }
        ensures spare { self.new.platforms.spare ≡ self.old.platforms.spare }
    {
        let before = self.sent.len();
        let answer = self.take(alloc, event)?;
        line_of(
            alloc,
            self.fates.len() as u64,
            before,
            self.sent.len(),
            &self.signed,
            &answer,
        )
    }

    /// Takes an event, as `step` does and under the same condition, and gives its answer. No line is written. Out of
    /// memory, the bills that were signed are as before.
    pub fn take(&mut self, alloc: Global, event: Event) -> Result<Answer, NoMemory>
        requires form { IsEvent (event_view event) }
        requires nests { IsNested (event_view event) }
        requires listed { names_listed self.old.platforms.roster (event_view event) ≡ true }
        requires few { length self.old.fates < 4294967295 }
        ensures ok { IfOk result (λ answer. IsStepped M.seen M.faults self.old (event_view event) answer self.new) }
        ensures short { OnErr result (IsCut M.seen M.faults self.old
            (comes_to self.old.signed self.old.sent (event_view event)) self.new) }
        ensures signed { OnErr result (self.new.signed ≡ self.old.signed) }
        ensures writable { IfOk result IsWritable }
        ensures grown { IfOk result (λ _. length self.old.sent ≤ length self.new.sent) }
        ensures roster { self.new.platforms.roster ≡ self.old.platforms.roster }
        ensures spare { self.new.platforms.spare ≡ self.old.platforms.spare }
    {
        self.fates.reserve(1)?;
        match comes_to(alloc, self.signed.as_slice(), self.sent.as_slice(), event)? {
            Happening::Answered(answer) => {
                self.fates.push_reserved(whole(alloc));
                Ok(answer)
            }
            Happening::Asked(asking) => self.ask(alloc, asking),
            Happening::StartsAgain(at) => self.start_again(alloc, at),
        }
    }

    // A platform's shard is asked, and what comes of it is added.
    fn ask(&mut self, alloc: Global, asking: Asking) -> Result<Answer, NoMemory>
        requires may { MayAsk (world_of M.seen self.old) (asking_view asking) }
        requires few { length self.old.fates < 4294967295 }
        ensures ok { IfOk result (λ answer. HasHappened M.seen M.faults self.old (asks (asking_view asking)) answer
            self.new) }
        ensures short { OnErr result (IsCut M.seen M.faults self.old (asks (asking_view asking)) self.new) }
        ensures signed { OnErr result (self.new.signed ≡ self.old.signed) }
        ensures writable { IfOk result IsWritable }
        ensures grown { IfOk result (λ _. length self.old.sent ≤ length self.new.sent) }
        ensures roster { self.new.platforms.roster ≡ self.old.platforms.roster }
        ensures spare { self.new.platforms.spare ≡ self.old.platforms.spare }
    {
        self.fates.reserve(1)?;
        let room = Vec::with_capacity(alloc, 1)?;
        let path = ReplyPath::of(alloc, &asking)?;
        let signing = is_sign(&asking.request);
        let shard = shard_of(alloc, &asking.request)?;
        let now = moment_or_first(asking.now);
        let taken = self
            .platforms
            .take(alloc, asking.at, shard, now, asking.request, room);
        self.fates.push_reserved(taken.fate);
        self.follow(alloc, path, signing, taken.outcome)
    }

    // A platform starts again.
    fn start_again(&mut self, alloc: Global, at: PlatformCode) -> Result<Answer, NoMemory>
        requires listed { has_platform self.old.platforms.roster at ≡ true }
        ensures ok { IfOk result (λ answer. HasHappened M.seen M.faults self.old (starts_again at) answer self.new) }
        ensures short { OnErr result (IsCut M.seen M.faults self.old (starts_again at) self.new) }
        ensures signed { OnErr result (self.new.signed ≡ self.old.signed) }
        ensures writable { IfOk result IsWritable }
        ensures grown { IfOk result (λ _. self.new.sent ≡ self.old.sent) }
        ensures roster { self.new.platforms.roster ≡ self.old.platforms.roster }
        ensures spare { self.new.platforms.spare ≡ self.old.platforms.spare }
    {
        self.fates.reserve(1)?;
        let room = Vec::with_capacity(alloc, SHARDS as usize)?;
        let fate = self.platforms.start_again(alloc, at, room);
        let end = fate.end;
        self.fates.push_reserved(fate);
        start_answer(end)
    }

    // What an outcome sends and signs is added. Out of memory, what it sends may stand behind what was sent; nothing
    // else changes.
    fn follow(
        &mut self,
        alloc: Global,
        path: ReplyPath,
        signing: bool,
        out: Outcome,
    ) -> Result<Answer, NoMemory>
        requires path { IsPathBetweenListed self.old.platforms.roster path }
        requires listed { AreForListed self.old.platforms.roster out.messages }
        ensures answer { IfOk result (λ answer. answer ≡ Replied out.reply) }
        ensures ok { OnOk result (IsFollowed self.old path signing out self.new) }
        ensures sent { OnErr result (IsPrefix self.old.sent self.new.sent) }
        ensures signed { OnErr result (self.new.signed ≡ self.old.signed) }
        ensures fates { self.new.fates ≡ self.old.fates }
        ensures platforms { self.new.platforms ≡ self.old.platforms }
    {
        let Outcome { reply, messages } = out;
        match reply {
            Reply::NoMemory => Err(NoMemory),
            reply => {
                let parcels = parcels_of(alloc, path, &reply, messages)?;
                let bill = bill_by(signing, &reply);
                send(&mut self.sent, parcels)?;
                sign(&mut self.signed, bill)?;
                Ok(Answer::Replied(reply))
            }
        }
    }
}

// The fate of what is answered at once.
fn whole(alloc: Global) -> Fate
    ensures end { result.end ≡ FateEnd.Whole }
    ensures kept { result.kept ≡ [] }
{
    Fate {
        end: FateEnd::Whole,
        kept: Items::new(alloc),
    }
}

// What is answered to a platform's start that ended so.
fn start_answer(end: FateEnd) -> Result<Answer, NoMemory>
    ensures answer { IfOk result (λ answer. answer ≡ start_answer end) }
    ensures not_short { end ≡ FateEnd.Short → OnOk result ⊥ }
    ensures short { OnErr result (end ≡ FateEnd.Short) }
    ensures writable { IfOk result IsWritable }
{
    match end {
        FateEnd::Stuck(_) => Ok(Answer::Replied(Reply::Disk)),
        FateEnd::Short => Err(NoMemory),
        FateEnd::Whole | FateEnd::SignFault | FateEnd::Failed => Ok(Answer::Opened),
    }
}

// Whether a request is a Sign.
fn is_sign(request: &Request) -> bool
    ensures { result ≡ is_sign (request_view request.now) }
{
    matches!(
        request,
        Request::Command {
            command: Command::Sign { .. },
            ..
        }
    )
}

// The bill that a reply signs, to a Sign or to another request.
fn bill_by(signing: bool, reply: &Reply) -> Option<Checksum>
    ensures { result ≡ bill_by signing reply.now }
{
    match reply {
        Reply::Done(view) if signing => Some(view.bill),
        _ => None,
    }
}

// The moment, or else the first one.
fn moment_or_first(now: Option<Moment>) -> Moment
    ensures { IsAt now result }
{
    match now {
        Some(now) => now,
        None => Moment::try_new(0).unwrap(),
    }
}
