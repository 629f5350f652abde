//! An office, and its calls.
ghost use Rattle.std.specs.Prelude.{◌≡◌, ◌≢◌, ◌<◌, ◌≤◌, ◌+◌, ℕ, IfOk, IfErr, IsErrOf, OnErr, max, vec_len, length};
ghost use mathlib.Core.List.{IsPrefix};
ghost use Rattle.party_roster.specs.RosterForm.{IsRoster};
ghost use Rattle.platform_requests.specs.Request.{request_view};
ghost use Rattle.platform_requests.specs.Shard.{shard_of};
ghost use Rattle.transfer_core.specs.Shard.{is_own_party};
ghost use Rattle.bill_locks.specs.View.{counted, mark_at, first_view, knows_of_another, left_of, right_of, whole, with_mark};
ghost use Rattle.bill_locks.specs.Steps.{with_front};
ghost use Rattle.bill_locks.specs.Turn.{JoinsMarks, Turned};
ghost use Rattle.platform_office.specs.Answered.{told_by};
ghost use Rattle.platform_office.specs.Office.{IsPassOf, IsServedAt, Knows, KnowsOfMore, front_at};
ghost use Rattle.platform_office.specs.Served.{MayBeServed};
ghost use Rattle.platform_office.specs.Closed.{IsLeft};
ghost use Rattle.platform_office.specs.Opening.{AreBack, Beside, IsKnown, IsRefusal};
ghost use Rattle.platform_office.specs.declared.fault.OfficeFault.TheVariants as opening;
ghost use Rattle.platform_office.specs.declared.fault.TryFault.TheVariants as faults;

use crate::closing::{Closed, close_all};
use crate::fault::{OfficeFault, TryFault};
use crate::job::Ask;
use crate::opening::open_all;
use crate::served::Served;
use crate::shard::OfficeShard;
use bill_locks::{CloseFault, Turns};
use disk_model::Disk;
use ebl_base::{Moment, NoMemory, Party, PlatformCode};
use journaled_shard::Rack;
use party_roster::Roster;
use platform_requests::{Request, shard_of};
use signed_envelope::KeyRing;
use std::alloc::Global;
use std::marker::Model;
use std::sync::Wait;
use std::thread::yield_now;

/// The right to take turns at an office, and what its holder has seen and done there.
pub type Pass<D, G> = bill_locks::Pass<OfficeShard<D, G>>;

/// The sixteen shards of a platform, which threads take one at a time.
///
/// Contracts see which table of turns it is, its platform and its roster.
#[derive(Drop)]
pub struct Office<D: Disk, G: KeyRing> {
    alloc: Global,
    me: PlatformCode,
    roster: Roster,
    turns: Turns<OfficeShard<D, G>>,
}

impl<D: Disk, G: KeyRing> Model for Office<D, G> {
    ghost use Rattle.std.specs.Prelude.{◌≡◌};
    ghost use Rattle.platform_office.specs.Office.{OfficeRecord};

    ghost Value = { OfficeRecord };

    ghost view = { λ o. record { table = o.turns; me = o.me; roster = o.roster } };

    ghost invariant = { λ o. o.turns.slots ≡ 16 };
}

impl<D: Disk + Drop, G: KeyRing + Drop> Office<D, G> {
    /// Opens the sixteen shards of the platform `me`, one from each rack, in their order, and makes the first pass,
    /// which has seen nothing. A blank disk is made a journal; another one is synced and read.
    ///
    /// The first rack that is refused ends it: `OpenFault` comes only where that disk's count of faults rose, `Damaged`
    /// only where the disk, if it tells, is no journal of a legal diary of its shard's bills. The racks come back in
    /// their order; at `NoMemory` some may be missing.
    pub fn open(
        alloc: Global,
        me: PlatformCode,
        roster: Roster,
        racks: Vec<Rack<D, G>>,
    ) -> Result<(Office<D, G>, Pass<D, G>), (Vec<Rack<D, G>>, OfficeFault)>
        requires roster { IsRoster roster }
        requires sixteen { vec_len racks ≡ 16 }
        ensures me { IfOk result (λ r. r.0.me ≡ me) }
        ensures roster { IfOk result (λ r. r.0.roster ≡ roster) }
        ensures of { IfOk result (λ r. IsPassOf r.0 r.1) }
        ensures first { IfOk result (λ r. r.1.knows ≡ first_view r.1.knows.opened) }
        ensures opened { IfOk result (λ r.
            Beside (IsKnown D.tells D.seen D.faults me roster G.faults) 0 racks.items r.1.knows.opened) }
        ensures back { IfErr result
            (λ r. r.1 ≢ opening.NoMemory → AreBack D.tells D.seen D.faults racks.items r.0.items) }
        ensures refused { IfErr result (λ r. IsRefusal D.tells D.seen D.faults me roster G.keys racks.items r.0.items
            r.1) }
    {
        match open_all(alloc, me, &roster, racks) {
            Ok(shards) => match Turns::new(alloc, shards) {
                Ok((turns, pass)) => Ok((
                    Office {
                        alloc,
                        me,
                        roster,
                        turns,
                    },
                    pass,
                )),
                Err(NoMemory) => Err((Vec::new(alloc), OfficeFault::NoMemory)),
            },
            Err(refused) => Err(refused),
        }
    }

    /// Serves a request at its shard, if that shard's turn is free at this moment. It waits for nobody.
    ///
    /// `Busy` comes only if the turn was out with another pass, and hands the request back; from then on this pass
    /// knows of more passes than it stands for. `NoMemory` comes before the shard is tried, and nothing changed.
    pub fn try_take(
        &self,
        alloc: Global,
        pass: &mut Pass<D, G>,
        now: Moment,
        request: Request,
    ) -> Result<Served, TryFault>
        requires of { IsPassOf self.now pass.old }
        requires may { MayBeServed now (request_view request) }
        ensures of { IsPassOf self.now pass.new }
        ensures shard { IfOk result (λ s. s.shard ≡ shard_of (request_view request)) }
        ensures turned { IfOk result (λ s. Turned s.shard (told_by s) pass.old.knows pass.new.knows) }
        ensures served { IfOk result (λ s. IsServedAt D.tells G.keys pass.new.knows now (request_view request) s) }
        ensures busy { (r : Request) → IsErrOf result (faults.Busy r) → (r ≡ request)
            × (pass.new.knows ≡ knows_of_another pass.old.knows)
            × (pass.new.knows.stands < pass.new.knows.known) }
        ensures no_memory { IsErrOf result faults.NoMemory → pass.new.knows ≡ pass.old.knows }
    {
        let Ok(shard) = shard_of(alloc, &request) else {
            return Err(TryFault::NoMemory);
        };
        match self.try_at(alloc, pass, now, shard, request) {
            Ok(served) => Ok(served),
            Err(request) => Err(TryFault::Busy(request)),
        }
    }

    // Serves a request at its shard, which has this number, if that shard's turn is free at this moment. Where another
    // pass has it, the request comes back.
    fn try_at(
        &self,
        alloc: Global,
        pass: &mut Pass<D, G>,
        now: Moment,
        shard: u32,
        request: Request,
    ) -> Result<Served, Request>
        requires of { IsPassOf self.now pass.old }
        requires may { MayBeServed now (request_view request) }
        requires goes { shard_of (request_view request) ≡ shard }
        requires place { shard < 16 }
        ensures of { IsPassOf self.now pass.new }
        ensures shard { IfOk result (λ s. s.shard ≡ shard) }
        ensures turned { IfOk result (λ s. Turned s.shard (told_by s) pass.old.knows pass.new.knows) }
        ensures served { IfOk result (λ s. IsServedAt D.tells G.keys pass.new.knows now (request_view request) s) }
        ensures busy { IfErr result (λ r. (r ≡ request) × (pass.new.knows ≡ knows_of_another pass.old.knows)
            × (pass.new.knows.stands < pass.new.knows.known)) }
    {
        let job = Ask {
            alloc,
            shard,
            now,
            request,
        };
        match self.turns.try_turn(pass, shard as usize, job) {
            Ok(served) => Ok(served),
            Err(busy) => Err(busy.job.request),
        }
    }

    /// Serves a request at its shard: tries until it has that shard's turn. It waits as long as others have it.
    ///
    /// `NoMemory` comes before the shard is tried, and nothing changed.
    pub fn take<R: Wait>(
        &self,
        rt: &R,
        alloc: Global,
        pass: &mut Pass<D, G>,
        now: Moment,
        request: Request,
    ) -> Result<Served, NoMemory>
        requires of { IsPassOf self.now pass.old }
        requires may { MayBeServed now (request_view request) }
        ensures of { IsPassOf self.now pass.new }
        ensures shard { IfOk result (λ s. s.shard ≡ shard_of (request_view request)) }
        ensures turned { IfOk result (λ s. (knows : Knows D G) × KnowsOfMore pass.old.knows knows
            × Turned s.shard (told_by s) knows pass.new.knows) }
        ensures served { IfOk result (λ s. IsServedAt D.tells G.keys pass.new.knows now (request_view request) s) }
        ensures no_memory { OnErr result (pass.new.knows ≡ pass.old.knows) }
    {
        let Ok(shard) = shard_of(alloc, &request) else {
            return Err(NoMemory);
        };
        let mut asked = request;
        for _ in rt.forever() {
            match self.try_at(alloc, pass, now, shard, asked) {
                Ok(served) => return Ok(served),
                Err(request) => asked = request,
            }
            yield_now();
        }
        unreachable!()
    }

    /// How many frames a shard has, after one load, which the pass has then seen. While the shard's turn is out, it is
    /// as many as there were when the turn began.
    pub fn seen(&self, pass: &mut Pass<D, G>, shard: usize) -> u64
        requires of { IsPassOf self.now pass.old }
        requires shard { shard < 16 }
        ensures of { IsPassOf self.now pass.new }
        ensures count { result ≡ length (front_at shard pass.new.knows) }
        ensures seen { IsPrefix (front_at shard pass.old.knows) (front_at shard pass.new.knows) }
        ensures changes { pass.new.knows ≡ with_mark shard
            (with_front (front_at shard pass.new.knows) (mark_at shard pass.old.knows)) pass.old.knows }
    {
        self.turns.seen(pass, shard)
    }

    /// Makes another pass, which has seen what this one has, and made nothing. Each then has half of the share that
    /// this one had, and knows of more passes than it stands for.
    ///
    /// `NoMemory` comes where 2^64 - 1 passes were made, or where other threads made one at each of as many tries.
    pub fn split(&self, pass: &mut Pass<D, G>) -> Result<Pass<D, G>, NoMemory>
        requires of { IsPassOf self.now pass.old }
        ensures of { IsPassOf self.now pass.new }
        ensures other { IfOk result (λ p. IsPassOf self.now p) }
        ensures parts { IfOk result (λ _. pass.new.knows ≡ left_of (counted pass.old.knows)) }
        ensures made { IfOk result (λ p. p.knows ≡ right_of (counted pass.old.knows)) }
        ensures another { IfOk result (λ p. (pass.new.knows.stands < pass.new.knows.known)
            × (p.knows.stands < p.knows.known)) }
        ensures no_memory { OnErr result (pass.new ≡ pass.old) }
    {
        self.turns.split(pass)
    }

    /// Joins a pass to another, which then stands for the passes of both.
    pub fn join(&self, into: &mut Pass<D, G>, from: Pass<D, G>)
        requires of { IsPassOf self.now into.old }
        requires other { IsPassOf self.now from }
        ensures of { IsPassOf self.now into.new }
        ensures marks { (k : ℕ) → k < 16
            → JoinsMarks (mark_at k into.old.knows) (mark_at k from.knows) (mark_at k into.new.knows) }
        ensures stands { into.new.knows.stands ≡ into.old.knows.stands + from.knows.stands }
        ensures known { into.new.knows.known ≡ max into.old.knows.known from.knows.known }
        ensures share { into.new.knows.share ≡ into.old.knows.share + from.knows.share }
        ensures opened { into.new.knows.opened ≡ into.old.knows.opened }
    {
        self.turns.join(into, from);
    }

    /// Closes the office, if `last` stands for all passes that were made, and so has the whole table: hands out the
    /// racks and the diaries, in the order of the shards.
    ///
    /// `Passes` comes only if another pass is out. After either fault everything is as before, except that the pass
    /// then knows that another is out.
    pub fn close(
        self,
        last: Pass<D, G>,
    ) -> Result<Closed<D, G>, (Office<D, G>, Pass<D, G>, CloseFault)>
        requires of { IsPassOf self last }
        ensures racks { IfOk result (λ c. vec_len c.racks ≡ 16) }
        ensures diaries { IfOk result (λ c. length c.diaries ≡ 16) }
        ensures left { IfOk result (λ c. (k : ℕ) → k < 16 → IsLeft D.tells D.seen D.faults G.keys G.faults k last.knows
            c.racks.items c.diaries) }
        ensures alone { IfOk result (λ _. last.knows.known ≤ last.knows.stands) }
        ensures whole { IfOk result (λ _. last.knows.share ≡ whole) }
        ensures office { IfErr result (λ r. r.0 ≡ self) }
        ensures of { IfErr result (λ r. IsPassOf self r.1) }
        ensures passes { IfErr result (λ r. r.2 ≡ CloseFault.Passes → r.1.knows ≡ knows_of_another last.knows) }
        ensures no_memory { IfErr result (λ r. r.2 ≡ CloseFault.NoMemory → r.1.knows ≡ last.knows) }
    {
        let Ok(racks) = Vec::with_capacity(self.alloc, 16) else {
            return Err((self, last, CloseFault::NoMemory));
        };
        let Ok(diaries) = Vec::with_capacity(self.alloc, 16) else {
            return Err((self, last, CloseFault::NoMemory));
        };
        let Office {
            alloc,
            me,
            roster,
            turns,
        } = self;
        match turns.close(last) {
            Ok(shards) => Ok(close_all(shards, racks, diaries)),
            Err((turns, last, fault)) => {
                let office = Office {
                    alloc,
                    me,
                    roster,
                    turns,
                };
                Err((office, last, fault))
            }
        }
    }

    /// Whether a party is one of this platform that the roster knows. It takes no turn.
    pub fn knows(&self, party: Party) -> bool
        ensures { result ≡ is_own_party self.now.me self.now.roster party }
    {
        party.platform == self.me && self.roster.knows(party)
    }
}
