//! The world of a roster before the first event, on blank disks.
ghost use Rattle.std.specs.Prelude.{◌≡◌, ◌≤◌, ◌<◌, ◌+◌, ◌*◌, ℕ, [], Some, drop, length, map, reverse, slice_get, take, IfErr, IfOk, IsErrOf, OnErr, OnOk, vec_capacity, vec_len};
ghost use Rattle.party_roster.specs.RosterForm.{IsRoster};
ghost use Rattle.platform_world.specs.Opening.{AreBack, AreBlank, AreOnRacks, FailsAtLast, IsBlankAtLast, IsOpening, IsStopped, OpensLast, RoseAt};
ghost use Rattle.platform_world.specs.Platforms.{codes_of};
ghost use Rattle.platform_world.specs.declared.opening.WorldFault.TheVariants as world;
ghost use Rattle.platform_world.specs.State.{world_of};
ghost use Rattle.platform_world.specs.World.{opening};

use crate::machine::Machine;
use crate::platforms::{Platforms, racks_of};
use crate::world::World;
use bill_journal::OpenFault;
use disk_model::Disk;
use ebl_base::{Copied, NoMemory, PlatformCode};
use journaled_shard::{JournaledShard, Rack};
use party_roster::Roster;
use platform_requests::SHARDS;
use signed_envelope::KeyRing;
use std::alloc::Global;

/// Why a world wasn't opened.
#[derive(Clone, Copy, Debug, PartialEq, Eq)]
pub enum WorldFault {
    /// The disk of the rack at this position failed.
    OpenFault(usize),
    /// Memory ran out.
    NoMemory,
}

impl From<NoMemory> for WorldFault {
    ghost from_gives = { λ _ e. e ≡ world.NoMemory };

    fn from(_: NoMemory) -> WorldFault {
        WorldFault::NoMemory
    }
}

impl<D: Disk + Drop, G: KeyRing + Drop> World<JournaledShard<D, G>> {
    /// The world of a roster before the first event. Each platform takes the next sixteen racks, one for each shard, in
    /// the roster's order; their disks tell their content and are blank, and are made journals. Further racks stay
    /// untouched.
    ///
    /// `OpenFault(i)` comes only where the count of faults of disk i rose. After a fault all racks come back in their
    /// order.
    pub fn open(
        alloc: Global,
        roster: Roster,
        racks: Vec<Rack<D, G>>,
    ) -> Result<World<JournaledShard<D, G>>, (Vec<Rack<D, G>>, WorldFault)>
        requires form { IsRoster roster }
        requires racks { 16 * length roster.platforms ≤ length racks.items }
        requires blank { AreBlank D.tells D.seen (take (16 * length roster.platforms) racks.items) }
        ensures opening { IfOk result (λ w. world_of ⟦<JournaledShard<D, G> as Machine>⟧.seen w
            ≡ opening roster (map (λ rack. G.keys rack.ring) racks.items)) }
        ensures fates { IfOk result (λ w. w.fates ≡ []) }
        ensures count { IfOk result (λ w. length w.platforms.shards ≡ 16 * length roster.platforms) }
        ensures shards { IfOk result (λ w. AreOnRacks D.faults racks.items w.platforms.shards) }
        ensures spare { IfOk result (λ w. reverse w.platforms.spare
            ≡ drop (16 * length roster.platforms) racks.items) }
        ensures back { IfErr result (λ r. AreBack D.faults racks.items r.0.items) }
        ensures further { IfErr result (λ r. drop (16 * length roster.platforms) r.0.items
            ≡ drop (16 * length roster.platforms) racks.items) }
        ensures failed { (i : ℕ) → IfErr result (λ r. r.1 ≡ WorldFault.OpenFault i
            → RoseAt D.faults i racks.items r.0.items) }
    {
        let needed = SHARDS as usize * roster.platforms().len();
        let mut racks = racks;
        racks.reverse();
        let mut shards = Vec::new(alloc);
        match open_shards(alloc, &roster, needed, &mut racks, &mut shards) {
            Ok(()) => Ok(World::new(alloc, Platforms::new(roster, shards, racks))),
            Err(fault) => Err((racks_of(shards, racks), fault)),
        }
    }
}

// Opens so many shards on the last of these racks, from the last on. Where that fails, the rack is put back.
fn open_shards<D: Disk + Drop, G: KeyRing + Drop>(
    alloc: Global,
    roster: &Roster,
    needed: usize,
    racks: &mut Vec<Rack<D, G>>,
    shards: &mut Vec<JournaledShard<D, G>>,
) -> Result<(), WorldFault>
    requires form { IsRoster roster.now }
    requires needed { needed ≡ 16 * length roster.now.platforms }
    requires enough { needed ≤ vec_len racks.old }
    requires blank { AreBlank D.tells D.seen (take needed (reverse racks.old.items)) }
    requires none { shards.old.items ≡ [] }
    ensures ok { OnOk result (IsOpening D.tells D.faults roster.now (codes_of roster.now.platforms)
        (reverse racks.old.items) shards.new.items (reverse racks.new.items)) }
    ensures all { OnOk result (length shards.new.items ≡ needed) }
    ensures err { IfErr result (λ fault. IsStopped D.tells D.faults roster.now needed (reverse racks.old.items)
        shards.new.items (reverse racks.new.items) fault) }
    ensures room { vec_len racks.new + vec_len shards.new ≤ vec_capacity racks.new }
{
    make_room(shards, needed)?;
    for position in 0..needed {
        let me = platform_at(roster.platforms(), position);
        let by = roster.copy(alloc)?;
        match open_next(alloc, me, by, racks) {
            Ok(shard) => shards.push_reserved(shard),
            Err(fault) => return Err(fault_at(position, fault)),
        }
    }
    Ok(())
}

// Makes room for so many more.
fn make_room<T>(items: &mut Vec<T>, more: usize) -> Result<(), NoMemory>
    ensures items { items.new.items ≡ items.old.items }
    ensures len { vec_len items.new ≡ vec_len items.old }
    ensures room { OnOk result (vec_len items.new + more ≤ vec_capacity items.new) }
{
    items.reserve(more)?;
    Ok(())
}

// Opens the last of these racks as the shard of a platform. Where that fails, the rack is put back.
fn open_next<D: Disk + Drop, G: KeyRing + Drop>(
    alloc: Global,
    me: PlatformCode,
    by: Roster,
    racks: &mut Vec<Rack<D, G>>,
) -> Result<JournaledShard<D, G>, OpenFault>
    requires form { IsRoster by }
    requires some { 0 < vec_len racks.old }
    requires blank { IsBlankAtLast D.tells D.seen racks.old.items }
    ensures ok { IfOk result (λ shard. OpensLast D.tells D.faults by me racks.old.items shard racks.new.items) }
    ensures err { IfErr result (λ fault. FailsAtLast D.faults racks.old.items racks.new.items fault) }
    ensures undamaged { (position : ℕ) → IsErrOf result (OpenFault.Damaged position) → ⊥ }
    ensures ok_len { OnOk result (vec_len racks.new + 1 ≡ vec_len racks.old) }
    ensures err_len { OnErr result (vec_len racks.new ≡ vec_len racks.old) }
    ensures capacity { vec_capacity racks.new ≡ vec_capacity racks.old }
{
    let Rack { disk, ring } = racks.pop().unwrap();
    match JournaledShard::open(alloc, me, by, disk, ring) {
        Ok(shard) => Ok(shard),
        Err((disk, ring, fault)) => {
            racks.push_reserved(Rack { disk, ring });
            Err(fault)
        }
    }
}

// The fault of the rack at this position. A blank disk is never damaged.
fn fault_at(position: usize, fault: OpenFault) -> WorldFault
    requires undamaged { (at : ℕ) → fault ≡ OpenFault.Damaged at → ⊥ }
    ensures { (i : ℕ) → result ≡ WorldFault.OpenFault i → (i ≡ position) × (fault ≡ OpenFault.Disk) }
{
    match fault {
        OpenFault::NoMemory => WorldFault::NoMemory,
        OpenFault::Disk | OpenFault::Damaged(_) => WorldFault::OpenFault(position),
    }
}

// The platform of the shard at this position among all.
fn platform_at(platforms: &[PlatformCode], position: usize) -> PlatformCode
    requires { position < 16 * length platforms.now }
    ensures { slice_get (codes_of platforms.now) position ≡ Some result }
{
    platforms[position / SHARDS as usize]
}
