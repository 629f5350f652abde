//! The shards of all platforms of a world.
//!
//! (1) There are sixteen shards for each platform of the roster, in its order, each for its platform and the roster,
//!     and each over a disk that tells its content.
//! (2) There is room to give all racks back: those of the shards behind the ones that none of them needed.
ghost use Rattle.std.specs.Prelude.{◌≡◌, ◌*◌, ◌+◌, ◌-◌, ◌∷◌, ◌++◌, ◌<◌, ◌≤◌, Bool, [], true, filter, if◌then◌else◌, length, map, reverse, slice_get, IfOk, IfSome, IsErrOf, OnErr, OnOk, vec_capacity, vec_len};
ghost use Rattle.party_roster.specs.RosterRecord.{has_platform};
ghost use Rattle.platform_machine.specs.Machine.{MayBeAsked};
ghost use Rattle.platform_requests.specs.Request.{request_view};
ghost use Rattle.answer_lines.specs.Lines.{IsWritable};
ghost use Rattle.answer_lines.specs.declared.answer.Answer.TheVariants.{Replied};
ghost use Rattle.bill_lines.specs.Diaries.{frames_of, histories_in, platforms_in};
ghost use Rattle.closed_family.specs.Family.{histories_of};
ghost use Rattle.platform_world.specs.Machine.{AreForListed, disk_times, ring_times, shard_state};
ghost use Rattle.platform_world.specs.Platforms.{AllTell, AreShardsOf, EachRose, TakesAt, AllHold, failures_at, given_diary, grouped, index_of, position_of, shard_diary, states_of, times_if};
ghost use Rattle.platform_world.specs.Shard.{IsResolved};
ghost use Rattle.platform_world.specs.Start.{AreLoosened, AreReadAgain, IsLoosenedAt, IsReadAt};
ghost use Rattle.platform_world.specs.World.{ShardState, is_settled, member_of, shard_at};

use crate::fate::{Fate, FateEnd};
use crate::machine::{Machine, Unread};
use crate::taking::{ShardAnswer, note, take_at};
use bill_diary::DiaryIndex;
use bill_lines::{DiaryRef, PlatformDiary};
use ebl_base::{Checksum, Items, Moment, NoMemory, PlatformCode};
use party_roster::Roster;
use platform_requests::{Request, SHARDS, shard_of_bill};
use std::alloc::Global;
use std::marker::Model;

/// The shards of all platforms of a roster.
#[derive(Drop)]
pub struct Platforms<M: Machine> {
    roster: Roster,
    shards: Vec<M>,
    // The racks that no shard needed, the last first.
    spare: Vec<M::Rack>,
}

impl<M: Machine> Model for Platforms<M> {
    ghost use Rattle.std.specs.Prelude.{◌+◌, ◌≤◌, map, vec_capacity, vec_len};
    ghost use Rattle.platform_world.specs.Platforms.{AllTell, AreShardsOf, PlatformsRecord};

    ghost Value = { PlatformsRecord M M.Rack };

    ghost view = { λ s. record { roster = s.roster; shards = s.shards.items; spare = s.spare.items } };

    ghost invariant = { λ s. AreShardsOf s.roster (map M.seen s.shards.items) × AllTell M.tells s.shards.items
        × (vec_len s.spare + vec_len s.shards ≤ vec_capacity s.spare) };
}

impl<M: Machine> Platforms<M> {
    /// The platforms of a roster, with sixteen shards for each, in the roster's order. `spare` has the racks that none
    /// of them needed, the last first, with room for theirs.
    pub fn new(roster: Roster, shards: Vec<M>, spare: Vec<M::Rack>) -> Platforms<M>
        requires shards { AreShardsOf roster (map M.seen shards.items) }
        requires told { AllTell M.tells shards.items }
        requires room { vec_len spare + vec_len shards ≤ vec_capacity spare }
        ensures roster { result.roster ≡ roster }
        ensures shards { result.shards ≡ shards.items }
        ensures spare { result.spare ≡ spare.items }
    {
        Platforms {
            roster,
            shards,
            spare,
        }
    }

    /// The roster.
    pub fn roster(&self) -> &Roster
        ensures { result.now ≡ self.now.roster }
    {
        &self.roster
    }

    /// A platform's shard takes a request at a moment, and is read again first, where it is loose. The messages are for
    /// platforms of the roster. `room` is for the number of the shard, in the fate.
    pub fn take(
        &mut self,
        alloc: Global,
        at: PlatformCode,
        shard: u32,
        now: Moment,
        request: Request,
        room: Vec<u32>,
    ) -> ShardAnswer
        requires listed { has_platform self.old.roster at ≡ true }
        requires shard { shard < 16 }
        requires asked { (s found : ShardState) (kept : Bool) → shard_at at shard (states_of M.seen self.old) ≡ Some s
            → IsResolved s kept found → MayBeAsked found.diary now (request_view request) }
        requires empty { room.items ≡ [] }
        requires room { 1 ≤ vec_capacity room }
        ensures taken { TakesAt self.old.roster (states_of M.seen self.old) at shard now (request_view request)
            result.fate result.outcome (states_of M.seen self.new) }
        ensures listed { AreForListed self.old.roster result.outcome.messages }
        ensures writable { IsWritable (Replied result.outcome.reply) }
        ensures disks { EachRose M.faults.disk (times_if (disk_times result.fate.end)
            (index_of at shard self.old.roster.platforms)) self.old.shards self.new.shards }
        ensures rings { EachRose M.faults.ring (times_if (ring_times result.fate.end)
            (index_of at shard self.old.roster.platforms)) self.old.shards self.new.shards }
        ensures roster { self.new.roster ≡ self.old.roster }
        ensures spare { self.new.spare ≡ self.old.spare }
    {
        let index = self.index_of(at, shard);
        let machine = &mut self.shards[index];
        take_at(alloc, shard, machine, now, request, room)
    }

    /// A platform's shards are read again one by one, up to the first that isn't read. `room` is for the numbers of
    /// shards, in the fate.
    pub fn start_again(&mut self, alloc: Global, at: PlatformCode, room: Vec<u32>) -> Fate
        requires listed { has_platform self.old.roster at ≡ true }
        requires empty { room.items ≡ [] }
        requires room { 16 ≤ vec_capacity room }
        ensures read { AreReadAgain at 0 16 (states_of M.seen self.old) result.end result.kept
            (states_of M.seen self.new) }
        ensures disks { EachRose M.faults.disk (failures_at self.old.roster.platforms at result.end) self.old.shards
            self.new.shards }
        ensures rings { EachRose M.faults.ring (λ k. 0) self.old.shards self.new.shards }
        ensures roster { self.new.roster ≡ self.old.roster }
        ensures spare { self.new.spare ≡ self.old.spare }
    {
        let mut kept = room;
        for shard in 0..SHARDS {
            match self.reopen(alloc, at, shard) {
                Ok(here) => note(&mut kept, here, shard),
                Err(why) => {
                    let end = self.cut_off(at, shard, why);
                    return Fate {
                        end,
                        kept: Items::from_vec(kept),
                    };
                }
            }
        }
        Fate {
            end: FateEnd::Whole,
            kept: Items::from_vec(kept),
        }
    }

    // The shard of this number wasn't read, and is loose: how it ends. Where the disk failed, all behind it are loose
    // too.
    fn cut_off(&mut self, at: PlatformCode, shard: u32, why: Unread) -> FateEnd
        requires listed { has_platform self.old.roster at ≡ true }
        requires shard { shard < 16 }
        ensures disk { why ≡ Unread.Disk → (result ≡ FateEnd.Stuck shard)
            × AreLoosened at (shard + 1) (15 - shard) (states_of M.seen self.old) (states_of M.seen self.new) }
        ensures short { why ≡ Unread.NoMemory → (result ≡ FateEnd.Short)
            × (states_of M.seen self.new ≡ states_of M.seen self.old) }
        ensures disks { EachRose M.faults.disk (λ k. 0) self.old.shards self.new.shards }
        ensures rings { EachRose M.faults.ring (λ k. 0) self.old.shards self.new.shards }
        ensures roster { self.new.roster ≡ self.old.roster }
        ensures spare { self.new.spare ≡ self.old.spare }
    {
        match why {
            Unread::Disk => {
                self.loosen_behind(at, shard);
                FateEnd::Stuck(shard)
            }
            Unread::NoMemory => FateEnd::Short,
        }
    }

    // All shards behind this one are loose from now on.
    fn loosen_behind(&mut self, at: PlatformCode, shard: u32)
        requires listed { has_platform self.old.roster at ≡ true }
        requires shard { shard < 16 }
        ensures loose { AreLoosened at (shard + 1) (15 - shard) (states_of M.seen self.old)
            (states_of M.seen self.new) }
        ensures disks { EachRose M.faults.disk (λ k. 0) self.old.shards self.new.shards }
        ensures rings { EachRose M.faults.ring (λ k. 0) self.old.shards self.new.shards }
        ensures roster { self.new.roster ≡ self.old.roster }
        ensures spare { self.new.spare ≡ self.old.spare }
    {
        for behind in shard + 1..SHARDS {
            self.loosen(at, behind);
        }
    }

    // A platform's shard is read again.
    fn reopen(&mut self, alloc: Global, at: PlatformCode, shard: u32) -> Result<bool, Unread>
        requires listed { has_platform self.old.roster at ≡ true }
        requires shard { shard < 16 }
        ensures read { IfOk result (λ kept. IsReadAt at shard (states_of M.seen self.old) kept
            (states_of M.seen self.new)) }
        ensures loose { OnErr result (IsLoosenedAt at shard (states_of M.seen self.old) (states_of M.seen self.new)) }
        ensures failed { IsErrOf result Unread.Disk → EachRose M.faults.disk (times_if 1
            (index_of at shard self.old.roster.platforms)) self.old.shards self.new.shards }
        ensures disks { EachRose M.faults.disk (λ k. 0) self.old.shards self.new.shards }
        ensures rings { EachRose M.faults.ring (λ k. 0) self.old.shards self.new.shards }
        ensures roster { self.new.roster ≡ self.old.roster }
        ensures spare { self.new.spare ≡ self.old.spare }
    {
        let index = self.index_of(at, shard);
        let machine = &mut self.shards[index];
        machine.reopen(alloc)
    }

    // A platform's shard is loose from now on.
    fn loosen(&mut self, at: PlatformCode, shard: u32)
        requires listed { has_platform self.old.roster at ≡ true }
        requires shard { shard < 16 }
        ensures loose { IsLoosenedAt at shard (states_of M.seen self.old) (states_of M.seen self.new) }
        ensures disks { EachRose M.faults.disk (λ k. 0) self.old.shards self.new.shards }
        ensures rings { EachRose M.faults.ring (λ k. 0) self.old.shards self.new.shards }
        ensures roster { self.new.roster ≡ self.old.roster }
        ensures spare { self.new.spare ≡ self.old.spare }
    {
        let index = self.index_of(at, shard);
        let machine = &mut self.shards[index];
        machine.loosen();
    }

    // Where a platform's shard stands among all.
    fn index_of(&self, at: PlatformCode, shard: u32) -> usize
        requires listed { has_platform self.now.roster at ≡ true }
        requires shard { shard < 16 }
        ensures index { result ≡ index_of at shard self.now.roster.platforms }
        ensures within { result < length self.now.shards }
    {
        let position = position_of(self.roster.platforms(), at);
        16 * position + shard as usize
    }

    /// The racks of all shards in their order, and then those that none of them needed. It allocates nothing.
    pub fn close(self) -> Vec<M::Rack>
        ensures racks { result.items ≡ map M.rack self.shards ++ reverse self.spare }
        ensures hold { AllHold M.holds M.rack M.seen self.shards }
    {
        racks_of(self.shards, self.spare)
    }

    /// The platforms whose shard of a bill isn't loose, in the roster's order.
    pub(crate) fn settled_for(
        &self,
        alloc: Global,
        bill: Checksum,
    ) -> Result<Vec<PlatformCode>, NoMemory>
        ensures { IfOk result (λ platforms. platforms.items ≡ map (λ state. state.platform)
            (filter (is_settled bill) (states_of M.seen self.now))) }
    {
        settled_for_shard(alloc, self.roster.platforms(), self.shards.as_slice(), bill)
    }

    /// The diaries of all shards in their order, each indexed by its bills. It goes over each diary once.
    pub(crate) fn indices(&self, alloc: Global) -> Result<Vec<DiaryIndex<'_>>, NoMemory>
        ensures { IfOk result (λ indices. indices.items ≡ map (λ m. (M.seen m).diary) self.now.shards) }
    {
        indices_of(alloc, self.shards.as_slice())
    }

    /// The diaries of a bill's shards, one for each platform, in the roster's order: by their indices, if those of all
    /// shards are given.
    pub(crate) fn diaries_of<'a>(
        &'a self,
        alloc: Global,
        indices: Option<&'a [DiaryIndex<'a>]>,
        bill: Checksum,
    ) -> Result<Vec<PlatformDiary<'a>>, NoMemory>
        requires { IfSome indices (λ given. given.now ≡ map (λ m. (M.seen m).diary) self.now.shards) }
        ensures platforms { IfOk result (λ diaries. platforms_in diaries.items ≡ self.now.roster.platforms) }
        ensures histories { IfOk result (λ diaries. histories_in bill diaries.items
            ≡ histories_of bill (map member_of (states_of M.seen self.now))) }
    {
        let shard = shard_of_bill(bill) as usize;
        diaries_of_shard(
            alloc,
            self.roster.platforms(),
            self.shards.as_slice(),
            indices,
            shard,
        )
    }
}

/// The racks of these shards in their order, and then the spare ones, which come with the last first.
pub(crate) fn racks_of<M: Machine>(shards: Vec<M>, spare: Vec<M::Rack>) -> Vec<M::Rack>
    requires { vec_len spare + vec_len shards ≤ vec_capacity spare }
    ensures racks { result.items ≡ map M.rack shards.items ++ reverse spare.items }
    ensures hold { AllTell M.tells shards.items → AllHold M.holds M.rack M.seen shards.items }
{
    let mut shards = shards;
    let mut racks = spare;
    while let Some(shard) = shards.pop() {
        racks.push_reserved(shard.close());
    }
    racks.reverse();
    racks
}

// The diaries of these shards, each indexed by its bills.
fn indices_of<'a, M: Machine>(
    alloc: Global,
    shards: &'a [M],
) -> Result<Vec<DiaryIndex<'a>>, NoMemory>
    ensures { IfOk result (λ indices. indices.items ≡ map (λ m. (M.seen m).diary) shards.now) }
{
    let mut indices = Vec::with_capacity(alloc, shards.len())?;
    for machine in shards {
        indices.push(DiaryIndex::of(alloc, machine.diary().as_slice())?)?;
    }
    Ok(indices)
}

// The diaries of the shard of this number on each platform.
fn diaries_of_shard<'a, M: Machine>(
    alloc: Global,
    platforms: &[PlatformCode],
    shards: &'a [M],
    indices: Option<&'a [DiaryIndex<'a>]>,
    shard: usize,
) -> Result<Vec<PlatformDiary<'a>>, NoMemory>
    requires shard { shard < 16 }
    requires sixteen { length shards.now ≡ 16 * length platforms.now }
    requires indexed { IfSome indices (λ given. given.now ≡ map (λ m. (M.seen m).diary) shards.now) }
    ensures { IfOk result (λ diaries. map given_diary diaries.items
        ≡ map (shard_diary shard) (grouped platforms.now (map (λ m. shard_state (M.seen m)) shards.now))) }
{
    let mut diaries = Vec::with_capacity(alloc, platforms.len())?;
    for (position, platform) in platforms.iter().enumerate() {
        diaries.push(PlatformDiary {
            platform: *platform,
            diary: diary_at(shards, indices, 16 * position + shard),
        })?;
    }
    Ok(diaries)
}

// The platforms whose shard of a bill isn't loose.
fn settled_for_shard<M: Machine>(
    alloc: Global,
    platforms: &[PlatformCode],
    shards: &[M],
    bill: Checksum,
) -> Result<Vec<PlatformCode>, NoMemory>
    requires { length shards.now ≡ 16 * length platforms.now }
    ensures { IfOk result (λ settled. settled.items ≡ map (λ state. state.platform)
        (filter (is_settled bill) (grouped platforms.now (map (λ m. shard_state (M.seen m)) shards.now)))) }
{
    let shard = shard_of_bill(bill) as usize;
    let mut settled = Vec::with_capacity(alloc, platforms.len())?;
    for (position, platform) in platforms.iter().enumerate() {
        let loose = shards[16 * position + shard].is_loose();
        push_unless(&mut settled, loose, *platform)?;
    }
    Ok(settled)
}

// Puts a platform behind the others, unless its shard is loose.
fn push_unless(
    settled: &mut Vec<PlatformCode>,
    loose: bool,
    platform: PlatformCode,
) -> Result<(), NoMemory>
    ensures { OnOk result (settled.new.items ≡ settled.old.items ++ (if loose then [] else platform ∷ [])) }
{
    if !loose {
        settled.push(platform)?;
    }
    Ok(())
}

// The diary of the shard at a position: by its index, if those of all shards are given.
fn diary_at<'a, M: Machine>(
    shards: &'a [M],
    indices: Option<&'a [DiaryIndex<'a>]>,
    position: usize,
) -> DiaryRef<'a>
    requires within { position < length shards.now }
    requires indexed { IfSome indices (λ given. given.now ≡ map (λ m. (M.seen m).diary) shards.now) }
    ensures { (m : M) → slice_get shards.now position ≡ Some m → frames_of result ≡ (M.seen m).diary }
{
    match indices {
        Some(given) => DiaryRef::Indexed(&given[position]),
        None => DiaryRef::Whole(shards[position].diary()),
    }
}

// The position of a platform among these; their number, if it isn't among them.
fn position_of(platforms: &[PlatformCode], p: PlatformCode) -> usize
    ensures { result ≡ position_of p platforms.now }
{
    let mut position = 0;
    while position < platforms.len() && platforms[position] != p {
        position += 1;
    }
    position
}
