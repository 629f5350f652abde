//! The word `rehearse`: a generated run, and the line that sums it up.
ghost use Rattle.std.specs.Prelude.{◌≡◌, ◌*◌, ◌≤◌, None, length, true, IfOk, OnErr};
ghost use Rattle.ebl_base.specs.Faults.{Rose};
ghost use Rattle.party_roster.specs.RosterForm.{IsRoster};
ghost use Rattle.rehearsal.specs.Roster.{made_roster};
ghost use Rattle.ebl_run.specs.Drive.{racks_needed, serve};
ghost use Rattle.ebl_run.specs.Racks.{AllTell, lengths_of, written_among};
ghost use Rattle.ebl_run.specs.Rehearsed.{Rehearsed};
ghost use Rattle.ebl_run.specs.Safe.{AreHandedBack};
ghost use Rattle.ebl_run.specs.Status.{EndsAsLast, IsBeforeWrite, IsCausedBy, IsRehearsalEnd};

use crate::ended::Ended;
use crate::opened::{close, status_by, status_of};
use crate::racks::measure;
use crate::status::Status;
use disk_model::Disk;
use ebl_base::{ByteList, NoMemory};
use ebl_edge::Sink;
use journaled_shard::Rack;
use party_roster::Roster;
use platform_requests::SHARDS;
use platform_world::World;
use rehearsal::{MOST_BILLS, MOST_STEPS, made_roster};
use signed_envelope::KeyRing;
use std::alloc::Global;

/// Writes the line of a rehearsal from this seed, with so many bills and steps. It takes 48 racks, sixteen for each of
/// its three platforms, and leaves further ones untouched.
pub fn rehearse<K: Sink, D: Disk + Drop, G: KeyRing + Drop>(
    alloc: Global,
    seed: u64,
    bills: u64,
    steps: u64,
    sink: &mut K,
    racks: Vec<Rack<D, G>>,
) -> Ended<D, G>
    requires told { AllTell D.tells racks.items }
    requires some { 1 ≤ bills }
    requires bills { bills ≤ MOST_BILLS }
    requires steps { steps ≤ MOST_STEPS }
    ensures cause { IsCausedBy result.status None (length racks.items) (racks_needed made_roster)
        (written_among (racks_needed made_roster) (lengths_of D.seen racks.items)) }
    ensures rehearsed { Rehearsed D.seen D.may_leave D.faults G.keys G.faults seed bills steps racks.items result
        (K.written sink.old) (K.written sink.new) }
    ensures racks { AreHandedBack D.faults G.faults (racks_needed made_roster) racks.items result }
    ensures unwritten { IsBeforeWrite result.status → sink.new ≡ sink.old }
    ensures end { IsRehearsalEnd result.status }
    ensures write_fault { result.status ≡ Status.WriteFault → Rose (K.faults sink.old) (K.faults sink.new) }
    ensures later { K.faults sink.old ≤ K.faults sink.new }
{
    let Ok(roster) = made_roster(alloc) else {
        return Ended::at_once(alloc, Status::NoMemory, racks);
    };
    let needed = SHARDS as usize * roster.platforms().len();
    let mut racks = racks;
    match measure(needed, &mut racks) {
        Ok(()) => rehearse_on(alloc, roster, seed, bills, steps, sink, racks),
        Err(unfit) => Ended::at_once(alloc, status_of(unfit), racks),
    }
}

// The rehearsal on racks that serve.
fn rehearse_on<K: Sink, D: Disk + Drop, G: KeyRing + Drop>(
    alloc: Global,
    roster: Roster,
    seed: u64,
    bills: u64,
    steps: u64,
    sink: &mut K,
    racks: Vec<Rack<D, G>>,
) -> Ended<D, G>
    requires roster { roster ≡ made_roster }
    requires form { IsRoster roster }
    requires told { AllTell D.tells racks.items }
    requires serve { serve (racks_needed made_roster) (lengths_of D.seen racks.items) ≡ true }
    requires some { 1 ≤ bills }
    requires bills { bills ≤ MOST_BILLS }
    requires steps { steps ≤ MOST_STEPS }
    ensures cause { IsCausedBy result.status None (length racks.items) (racks_needed made_roster) None }
    ensures rehearsed { Rehearsed D.seen D.may_leave D.faults G.keys G.faults seed bills steps racks.items result
        (K.written sink.old) (K.written sink.new) }
    ensures racks { AreHandedBack D.faults G.faults (racks_needed made_roster) racks.items result }
    ensures touched { IsBeforeWrite result.status → ⊥ }
    ensures end { IsRehearsalEnd result.status }
    ensures write_fault { result.status ≡ Status.WriteFault → Rose (K.faults sink.old) (K.faults sink.new) }
    ensures later { K.faults sink.old ≤ K.faults sink.new }
{
    match World::open(alloc, roster, racks) {
        Ok(world) => {
            let (world, line) = rehearsal::rehearse(alloc, world, seed, bills, steps);
            let status = put_if_any(line, sink);
            close(status, world)
        }
        Err((racks, fault)) => Ended::at_once(alloc, status_by(fault), racks),
    }
}

// A line, if there is one.
fn put_if_any<K: Sink>(line: Result<ByteList, NoMemory>, sink: &mut K) -> Status
    ensures ok { IfOk line (λ line. EndsAsLast result line (K.written sink.old) (K.written sink.new)) }
    ensures short { OnErr line ((result ≡ Status.NoMemory) × (sink.new ≡ sink.old)) }
    ensures write_fault { result ≡ Status.WriteFault → Rose (K.faults sink.old) (K.faults sink.new) }
    ensures later { K.faults sink.old ≤ K.faults sink.new }
{
    match line {
        Ok(line) => put_line(line.as_slice(), sink),
        Err(NoMemory) => Status::NoMemory,
    }
}

fn put_line<K: Sink>(line: &[u8], sink: &mut K) -> Status
    ensures ends { EndsAsLast result line.now (K.written sink.old) (K.written sink.new) }
    ensures write_fault { result ≡ Status.WriteFault → Rose (K.faults sink.old) (K.faults sink.new) }
    ensures later { K.faults sink.old ≤ K.faults sink.new }
{
    match sink.put(line) {
        Ok(()) => Status::Done,
        Err(_) => Status::WriteFault,
    }
}
