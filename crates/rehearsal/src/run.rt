//! A rehearsal: bills are signed and issued, then the generator makes one event after another.
ghost use Rattle.std.specs.Prelude.{◌≡◌, ◌+◌, ◌*◌, ◌<◌, ◌≤◌, ℕ, [], length, map, replicate, IfOk, OnOk};
ghost use Rattle.std.specs.List.{flat_map, range_with_len};
ghost use Rattle.world_script.specs.Event.{event_view};
ghost use Rattle.platform_world.specs.Platforms.{EachRose};
ghost use Rattle.platform_world.specs.State.{world_of};
ghost use Rattle.rehearsal.specs.Events.{begin_bill, happen, happening, made};
ghost use Rattle.rehearsal.specs.Progress.{MayCome, Takes, TakesAll, progress};
ghost use Rattle.rehearsal.specs.Roster.{made_roster};
ghost use Rattle.rehearsal.specs.Summary.{SumsUp};

use crate::draws::Draws;
use crate::events::{issue, next_event, sign};
use crate::summary::summary_line;
use ebl_base::{ByteList, NoMemory};
use platform_world::{Machine, World};
use std::alloc::Global;
use world_script::Event;

/// The most bills of a rehearsal.
pub const MOST_BILLS: u64 = 1_000;

/// The most steps of a rehearsal.
pub const MOST_STEPS: u64 = 20_000;

/// Runs the generator over a world, and sums the run up in a line: how many bills it had, how many entries their bill
/// lines tell of, how many events it took, whether a bill line tells of a fork, and how often each reply came. The
/// world comes back.
///
/// Each bill is signed and issued, and then so many steps follow. The events are made and taken one by one, and none is
/// written. Beside the world it keeps two words of memory for each event.
pub fn rehearse<M: Machine>(
    alloc: Global,
    world: World<M>,
    seed: u64,
    bills: u64,
    steps: u64,
) -> (World<M>, Result<ByteList, NoMemory>)
    requires roster { (world_of M.seen world).roster ≡ made_roster }
    requires fresh { world.fates ≡ [] }
    requires some { 0 < bills }
    requires bills { bills ≤ MOST_BILLS }
    requires steps { steps ≤ MOST_STEPS }
    ensures line { IfOk result.1 (λ line. SumsUp M.seen M.faults seed bills steps world line result.0) }
    ensures roster { result.0.platforms.roster ≡ world.platforms.roster }
    ensures spare { result.0.platforms.spare ≡ world.platforms.spare }
    ensures disks { EachRose M.faults.disk (λ k. 0) world.platforms.shards result.0.platforms.shards }
    ensures rings { EachRose M.faults.ring (λ k. 0) world.platforms.shards result.0.platforms.shards }
{
    let mut run = Rehearsal::new(alloc, world, seed);
    let line = run.sum_up(alloc, bills, steps);
    (run.world, line)
}

// A rehearsal that is under way.
#[derive(Drop)]
struct Rehearsal<M: Machine> {
    world: World<M>,
    draws: Draws,
    // The word of each answer so far.
    answers: Vec<&'static str>,
}

impl<M: Machine> Rehearsal<M> {
    fn new(alloc: Global, world: World<M>, seed: u64) -> Rehearsal<M>
        ensures world { result.world ≡ world }
        ensures state { result.draws.state ≡ seed }
        ensures answers { result.answers.items ≡ [] }
    {
        Rehearsal {
            world,
            draws: Draws::new(seed),
            answers: Vec::new(alloc),
        }
    }

    // The whole run, and its line.
    fn sum_up(&mut self, alloc: Global, bills: u64, steps: u64) -> Result<ByteList, NoMemory>
        requires roster { (world_of M.seen self.old.world).roster ≡ made_roster }
        requires fresh { self.old.world.fates ≡ [] }
        requires answers { self.old.answers.items ≡ [] }
        requires some { 0 < bills }
        requires bills { bills ≤ MOST_BILLS }
        requires steps { steps ≤ MOST_STEPS }
        ensures line { IfOk result (λ line. SumsUp M.seen M.faults self.old.draws.state bills steps self.old.world
            line self.new.world) }
        ensures roster { self.new.world.platforms.roster ≡ made_roster }
        ensures spare { self.new.world.platforms.spare ≡ self.old.world.platforms.spare }
        ensures disks { EachRose M.faults.disk (λ k. 0) self.old.world.platforms.shards
            self.new.world.platforms.shards }
        ensures rings { EachRose M.faults.ring (λ k. 0) self.old.world.platforms.shards
            self.new.world.platforms.shards }
    {
        self.begin_bills(alloc, bills)?;
        self.go_on(alloc, bills, steps)?;
        summary_line(alloc, bills, &self.world, self.answers.as_slice())
    }

    // So many bills are signed and issued.
    fn begin_bills(&mut self, alloc: Global, bills: u64) -> Result<(), NoMemory>
        requires roster { self.old.world.platforms.roster ≡ made_roster }
        requires fresh { self.old.world.fates ≡ [] }
        requires bills { bills ≤ MOST_BILLS }
        ensures takes { OnOk result (TakesAll M.seen M.faults bills (flat_map begin_bill (range_with_len 1 bills))
            (progress self.old.world self.old.draws.state (map (λ a. a.now) self.old.answers.items))
            (progress self.new.world self.new.draws.state (map (λ a. a.now) self.new.answers.items))) }
        ensures events { OnOk result (length self.new.world.fates ≡ 2 * bills) }
        ensures roster { self.new.world.platforms.roster ≡ made_roster }
        ensures spare { self.new.world.platforms.spare ≡ self.old.world.platforms.spare }
        ensures disks { EachRose M.faults.disk (λ k. 0) self.old.world.platforms.shards
            self.new.world.platforms.shards }
        ensures rings { EachRose M.faults.ring (λ k. 0) self.old.world.platforms.shards
            self.new.world.platforms.shards }
    {
        for i in 0..bills {
            self.begin_bill(alloc, i + 1)?;
        }
        Ok(())
    }

    // A bill is signed and issued.
    fn begin_bill(&mut self, alloc: Global, number: u64) -> Result<(), NoMemory>
        requires roster { self.old.world.platforms.roster ≡ made_roster }
        requires few { length self.old.world.fates < 4294967294 }
        requires first { 1 ≤ number }
        requires last { number ≤ MOST_BILLS }
        ensures takes { OnOk result ((bills : ℕ) → TakesAll M.seen M.faults bills (begin_bill number)
            (progress self.old.world self.old.draws.state (map (λ a. a.now) self.old.answers.items))
            (progress self.new.world self.new.draws.state (map (λ a. a.now) self.new.answers.items))) }
        ensures events { OnOk result (length self.new.world.fates ≡ length self.old.world.fates + 2) }
        ensures roster { self.new.world.platforms.roster ≡ made_roster }
        ensures spare { self.new.world.platforms.spare ≡ self.old.world.platforms.spare }
        ensures disks { EachRose M.faults.disk (λ k. 0) self.old.world.platforms.shards
            self.new.world.platforms.shards }
        ensures rings { EachRose M.faults.ring (λ k. 0) self.old.world.platforms.shards
            self.new.world.platforms.shards }
    {
        let signing = sign(alloc, self.world.roster(), number)?;
        self.take(alloc, signing)?;
        let issuing = issue(self.world.roster(), &mut self.draws, number);
        self.take(alloc, issuing)
    }

    // So many things happen.
    fn go_on(&mut self, alloc: Global, bills: u64, steps: u64) -> Result<(), NoMemory>
        requires roster { self.old.world.platforms.roster ≡ made_roster }
        requires some { 0 < bills }
        requires bills { bills ≤ MOST_BILLS }
        requires steps { length self.old.world.fates + steps < 4294967295 }
        ensures takes { OnOk result (TakesAll M.seen M.faults bills (replicate steps happen)
            (progress self.old.world self.old.draws.state (map (λ a. a.now) self.old.answers.items))
            (progress self.new.world self.new.draws.state (map (λ a. a.now) self.new.answers.items))) }
        ensures roster { self.new.world.platforms.roster ≡ made_roster }
        ensures spare { self.new.world.platforms.spare ≡ self.old.world.platforms.spare }
        ensures disks { EachRose M.faults.disk (λ k. 0) self.old.world.platforms.shards
            self.new.world.platforms.shards }
        ensures rings { EachRose M.faults.ring (λ k. 0) self.old.world.platforms.shards
            self.new.world.platforms.shards }
    {
        for step in 0..steps {
            self.happen(alloc, bills)?;
        }
        Ok(())
    }

    // Something happens.
    fn happen(&mut self, alloc: Global, bills: u64) -> Result<(), NoMemory>
        requires roster { self.old.world.platforms.roster ≡ made_roster }
        requires some { 0 < bills }
        requires bills { bills ≤ MOST_BILLS }
        requires few { length self.old.world.fates < 4294967295 }
        ensures takes { OnOk result (Takes M.seen M.faults
            (progress self.old.world self.old.draws.state (map (λ a. a.now) self.old.answers.items))
            (happening bills (world_of M.seen self.old.world) self.old.draws.state)
            (progress self.new.world self.new.draws.state (map (λ a. a.now) self.new.answers.items))) }
        ensures events { OnOk result (length self.new.world.fates ≡ length self.old.world.fates + 1) }
        ensures roster { self.new.world.platforms.roster ≡ made_roster }
        ensures spare { self.new.world.platforms.spare ≡ self.old.world.platforms.spare }
        ensures disks { EachRose M.faults.disk (λ k. 0) self.old.world.platforms.shards
            self.new.world.platforms.shards }
        ensures rings { EachRose M.faults.ring (λ k. 0) self.old.world.platforms.shards
            self.new.world.platforms.shards }
    {
        let event = next_event(alloc, &self.world, &mut self.draws, bills)?;
        self.take(alloc, event)
    }

    // An event is taken, and the word of its answer kept.
    fn take(&mut self, alloc: Global, event: Event) -> Result<(), NoMemory>
        requires may { MayCome self.old.world.platforms.roster (event_view event) }
        requires few { length self.old.world.fates < 4294967295 }
        ensures takes { OnOk result (Takes M.seen M.faults
            (progress self.old.world self.old.draws.state (map (λ a. a.now) self.old.answers.items))
            (made (event_view event) self.old.draws.state)
            (progress self.new.world self.new.draws.state (map (λ a. a.now) self.new.answers.items))) }
        ensures events { OnOk result (length self.new.world.fates ≡ length self.old.world.fates + 1) }
        ensures roster { self.new.world.platforms.roster ≡ self.old.world.platforms.roster }
        ensures spare { self.new.world.platforms.spare ≡ self.old.world.platforms.spare }
        ensures disks { EachRose M.faults.disk (λ k. 0) self.old.world.platforms.shards
            self.new.world.platforms.shards }
        ensures rings { EachRose M.faults.ring (λ k. 0) self.old.world.platforms.shards
            self.new.world.platforms.shards }
    {
        let answer = self.world.take(alloc, event)?;
        self.answers.push(answer.as_str())?;
        Ok(())
    }
}
