//! Shards opened from racks, one after the other; where one is refused, all racks come back in their order.
ghost use Rattle.std.specs.Prelude.{◌≡◌, ◌≢◌, ◌≤◌, ◌<◌, ◌+◌, ◌++◌, ◌∷◌, [], All, IfErr, IfOk, List, ℕ, false, is_some, vec_len, vec_capacity, reverse, map};
ghost use Rattle.party_roster.specs.RosterForm.{IsRoster};
ghost use Rattle.platform_office.specs.Opening.{AreBack, Beside, IsOpened, IsRefusal, fault_at, rack_of};
ghost use Rattle.platform_office.specs.declared.fault.OfficeFault.TheVariants as faults;

use crate::fault::OfficeFault;
use crate::shard::OfficeShard;
use bill_journal::OpenFault;
use disk_model::Disk;
use ebl_base::{Copied, PlatformCode};
use journaled_shard::Rack;
use party_roster::Roster;
use signed_envelope::KeyRing;
use std::alloc::Global;

/// The shards of the racks, each with its place among them as its number. The first rack that is refused ends it.
pub(crate) fn open_all<D: Disk + Drop, G: KeyRing + Drop>(
    alloc: Global,
    me: PlatformCode,
    roster: &Roster,
    racks: Vec<Rack<D, G>>,
) -> Result<Vec<OfficeShard<D, G>>, (Vec<Rack<D, G>>, OfficeFault)>
    requires roster { IsRoster roster.now }
    requires few { vec_len racks ≤ 16 }
    ensures opened { IfOk result (λ shards.
        Beside (IsOpened D.tells D.seen D.faults me roster.now) 0 racks.items shards.items) }
    ensures firm { IfOk result (λ shards. All (λ s. is_some s.shard.written.loose ≡ false) shards.items) }
    ensures count { IfOk result (λ shards. vec_len shards ≡ vec_len racks) }
    ensures back { IfErr result
        (λ r. r.1 ≢ faults.NoMemory → AreBack D.tells D.seen D.faults racks.items r.0.items) }
    ensures refused { IfErr result (λ r. IsRefusal D.tells D.seen D.faults me roster.now G.keys racks.items r.0.items
        r.1) }
{
    let count = racks.len();
    let Ok(mut opened) = Vec::with_capacity(alloc, count) else {
        return Err((racks, OfficeFault::NoMemory));
    };
    let mut rest = racks;
    rest.reverse();
    while let Some(rack) = rest.pop() {
        let number = opened.len();
        let Ok(own) = roster.copy(alloc) else {
            return Err((back(opened, rack, rest), OfficeFault::NoMemory));
        };
        match OfficeShard::open(alloc, me, own, number as u32, rack) {
            Ok(shard) => opened.push_reserved(shard),
            Err((rack, fault)) => return Err((back(opened, rack, rest), refusal(number, fault))),
        }
    }
    Ok(opened)
}

// The racks in their order: those of the shards that were opened, the one that was refused, and the rest, which stand
// in the opposite order.
fn back<D: Disk + Drop, G: KeyRing + Drop>(
    opened: Vec<OfficeShard<D, G>>,
    refused: Rack<D, G>,
    rest: Vec<Rack<D, G>>,
) -> Vec<Rack<D, G>>
    requires room { vec_len opened + 1 + vec_len rest ≤ vec_capacity rest }
    ensures { result.items ≡ map rack_of opened.items ++ refused ∷ reverse rest.items }
{
    let mut rest = rest;
    rest.push_reserved(refused);
    racks_of(opened, rest)
}

// The racks of these shards in their order, and then the others, which come with the last first.
fn racks_of<D: Disk + Drop, G: KeyRing + Drop>(
    shards: Vec<OfficeShard<D, G>>,
    others: Vec<Rack<D, G>>,
) -> Vec<Rack<D, G>>
    requires room { vec_len shards + vec_len others ≤ vec_capacity others }
    ensures { result.items ≡ map rack_of shards.items ++ reverse others.items }
{
    let mut shards = shards;
    let mut racks = others;
    while let Some(shard) = shards.pop() {
        racks.push_reserved(shard.into_rack());
    }
    racks.reverse();
    racks
}

fn refusal(number: usize, fault: OpenFault) -> OfficeFault
    ensures { result ≡ fault_at number fault }
{
    match fault {
        OpenFault::Disk => OfficeFault::OpenFault(number),
        OpenFault::Damaged(place) => OfficeFault::Damaged(number, place),
        OpenFault::NoMemory => OfficeFault::NoMemory,
    }
}
