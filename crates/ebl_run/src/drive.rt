//! The word `drive`: the events of a script's lines, and then the bill lines.
ghost use Rattle.std.specs.Prelude.{◌≡◌, ◌+◌, ◌*◌, ◌<◌, ◌≤◌, None, [], false, true, length, IfOk, IfSome, OnErr};
ghost use Rattle.std.specs.Io.KnownBytes.{Appends};
ghost use Rattle.ebl_base.specs.Faults.{Rose};
ghost use Rattle.ebl_base.specs.Segments.{segments_of};
ghost use Rattle.party_roster.specs.RosterForm.{IsRoster};
ghost use Rattle.platform_world.specs.Run.{RunsScript, bill_lines};
ghost use Rattle.platform_world.specs.State.{world_of};
ghost use Rattle.ebl_run.specs.Drive.{Drives, first_bad, first_bad_line, racks_for, racks_needed, serve};
ghost use Rattle.ebl_run.specs.Events.{IsLineAnswered, IsLineCut, RanLines};
ghost use Rattle.ebl_run.specs.Racks.{AllTell, IsRefused, keys_of, lengths_of, written_among};
ghost use Rattle.ebl_run.specs.Safe.{AreHandedBack, Ran, RunsBehind};
ghost use Rattle.ebl_run.specs.Status.{EndsAs, EndsAsLast, IsAfterOpen, IsBeforeWrite, IsCausedBy, IsDriveEnd};

use crate::ended::Ended;
use crate::opened::{close, status_by, status_of};
use crate::racks::{Unfit, measure};
use crate::status::Status;
use disk_model::Disk;
use ebl_base::{ByteList, NoMemory, first_segment};
use ebl_edge::Sink;
use journaled_shard::Rack;
use party_roster::Roster;
use platform_requests::SHARDS;
use platform_world::{Machine, World};
use signed_envelope::KeyRing;
use std::alloc::Global;
use world_events::{event_in, roster_in};

/// The most lines of a script.
pub const MOST_LINES: u32 = 100_000;

/// Runs a script: writes the line that answers each of its events, and then a line for each bill that it signed.
///
/// Where the racks don't serve its roster, the script is read to its end for a bad line, and nothing is written.
pub fn drive<K: Sink, D: Disk + Drop, G: KeyRing + Drop>(
    alloc: Global,
    script: &[u8],
    sink: &mut K,
    racks: Vec<Rack<D, G>>,
) -> Ended<D, G>
    requires told { AllTell D.tells racks.items }
    ensures cause { IsCausedBy result.status (first_bad_line (segments_of 10 script.now)) (length racks.items)
        (racks_for (segments_of 10 script.now))
        (written_among (racks_for (segments_of 10 script.now)) (lengths_of D.seen racks.items)) }
    ensures ran { serve (racks_for (segments_of 10 script.now)) (lengths_of D.seen racks.items) ≡ true
        → Ran D.seen D.may_leave D.faults G.keys G.faults
        (λ fates run. RunsScript script.now (keys_of G.keys racks.items) fates run) racks.items result
        (K.written sink.old) (K.written sink.new) }
    ensures ends { EndsAs result.status (Drives script.now (keys_of G.keys racks.items)
        (lengths_of D.seen racks.items) result.fates) (K.written sink.old) (K.written sink.new) }
    ensures racks { AreHandedBack D.faults G.faults (racks_for (segments_of 10 script.now)) racks.items result }
    ensures unwritten { IsBeforeWrite result.status → sink.new ≡ sink.old }
    ensures end { IsDriveEnd result.status }
    ensures write_fault { result.status ≡ Status.WriteFault → Rose (K.faults sink.old) (K.faults sink.new) }
    ensures later { K.faults sink.old ≤ K.faults sink.new }
{
    let Some((line, rest)) = first_segment(b'\n', script) else {
        return Ended::at_once(alloc, Status::BadScript(1), racks);
    };
    match roster_in(alloc, line) {
        Ok(Some(roster)) => drive_roster(alloc, roster, rest, sink, racks),
        Ok(None) => Ended::at_once(alloc, Status::BadScript(1), racks),
        Err(NoMemory) => Ended::at_once(alloc, Status::NoMemory, racks),
    }
}

// The lines behind the roster, where the racks serve it.
fn drive_roster<K: Sink, D: Disk + Drop, G: KeyRing + Drop>(
    alloc: Global,
    roster: Roster,
    lines: &[u8],
    sink: &mut K,
    racks: Vec<Rack<D, G>>,
) -> Ended<D, G>
    requires form { IsRoster roster }
    requires told { AllTell D.tells racks.items }
    ensures cause { IsCausedBy result.status (first_bad roster 1 (segments_of 10 lines.now)) (length racks.items)
        (racks_needed roster) (written_among (racks_needed roster) (lengths_of D.seen racks.items)) }
    ensures ran { serve (racks_needed roster) (lengths_of D.seen racks.items) ≡ true
        → Ran D.seen D.may_leave D.faults G.keys G.faults
        (λ fates run. RunsBehind roster (segments_of 10 lines.now) (keys_of G.keys racks.items) fates run)
        racks.items result (K.written sink.old) (K.written sink.new) }
    ensures refused { serve (racks_needed roster) (lengths_of D.seen racks.items) ≡ false
        → (result.fates ≡ []) × (sink.new ≡ sink.old) }
    ensures racks { AreHandedBack D.faults G.faults (racks_needed roster) racks.items result }
    ensures unwritten { IsBeforeWrite result.status → sink.new ≡ sink.old }
    ensures end { IsDriveEnd result.status }
    ensures write_fault { result.status ≡ Status.WriteFault → Rose (K.faults sink.old) (K.faults sink.new) }
    ensures later { K.faults sink.old ≤ K.faults sink.new }
{
    let needed = SHARDS as usize * roster.platforms().len();
    let mut racks = racks;
    match measure(needed, &mut racks) {
        Ok(()) => drive_world(alloc, roster, lines, sink, racks),
        Err(unfit) => {
            let status = refuse(alloc, &roster, lines, unfit);
            Ended::at_once(alloc, status, racks)
        }
    }
}

// The racks don't serve: the first bad line, or else why they don't. A disk that couldn't be measured is reported
// at once.
fn refuse(alloc: Global, roster: &Roster, lines: &[u8], unfit: Unfit) -> Status
    ensures { IsRefused unfit (first_bad roster.now 1 (segments_of 10 lines.now)) result }
{
    if let Unfit::Faulty(place) = unfit {
        return Status::OpenFault(place);
    }
    match first_bad(alloc, roster, lines) {
        Ok(Some(number)) => Status::BadScript(number),
        Ok(None) => status_of(unfit),
        Err(NoMemory) => Status::NoMemory,
    }
}

// The number of the first of these lines that is no event, or comes after 100,000 lines.
fn first_bad(alloc: Global, roster: &Roster, lines: &[u8]) -> Result<Option<u64>, NoMemory>
    ensures { IfOk result (λ bad. bad ≡ first_bad roster.now 1 (segments_of 10 lines.now)) }
{
    let mut rest = lines;
    let mut n: u32 = 1;
    while let Some((line, after)) = first_segment(b'\n', rest) {
        if n >= MOST_LINES || event_in(alloc, roster, line)?.is_none() {
            return Ok(Some(u64::from(n) + 1));
        }
        rest = after;
        n += 1;
    }
    Ok(None)
}

// The lines on racks that serve.
fn drive_world<K: Sink, D: Disk + Drop, G: KeyRing + Drop>(
    alloc: Global,
    roster: Roster,
    lines: &[u8],
    sink: &mut K,
    racks: Vec<Rack<D, G>>,
) -> Ended<D, G>
    requires form { IsRoster roster }
    requires told { AllTell D.tells racks.items }
    requires serve { serve (racks_needed roster) (lengths_of D.seen racks.items) ≡ true }
    ensures cause { IsCausedBy result.status (first_bad roster 1 (segments_of 10 lines.now)) (length racks.items)
        (racks_needed roster) None }
    ensures ran { Ran D.seen D.may_leave D.faults G.keys G.faults
        (λ fates run. RunsBehind roster (segments_of 10 lines.now) (keys_of G.keys racks.items) fates run)
        racks.items result (K.written sink.old) (K.written sink.new) }
    ensures racks { AreHandedBack D.faults G.faults (racks_needed roster) racks.items result }
    ensures touched { IsBeforeWrite result.status → ⊥ }
    ensures end { IsDriveEnd result.status }
    ensures write_fault { result.status ≡ Status.WriteFault → Rose (K.faults sink.old) (K.faults sink.new) }
    ensures later { K.faults sink.old ≤ K.faults sink.new }
{
    match World::open(alloc, roster, racks) {
        Ok(world) => {
            let mut world = world;
            let status = run_events(alloc, &mut world, lines, sink);
            close(status, world)
        }
        Err((racks, fault)) => Ended::at_once(alloc, status_by(fault), racks),
    }
}

// The events of the lines behind the roster, and then the bill lines.
fn run_events<K: Sink, M: Machine>(
    alloc: Global,
    world: &mut World<M>,
    lines: &[u8],
    sink: &mut K,
) -> Status
    requires { world.old.fates ≡ [] }
    ensures cause { IsCausedBy result (first_bad world.old.platforms.roster 1 (segments_of 10 lines.now)) 0 0 None }
    ensures ran { RanLines M.seen M.faults world.old.platforms.roster (segments_of 10 lines.now) 1 world.old result
        (K.written sink.old) (K.written sink.new) world.new }
    ensures spare { world.new.platforms.spare ≡ world.old.platforms.spare }
    ensures after_open { IsAfterOpen result }
    ensures write_fault { result ≡ Status.WriteFault → Rose (K.faults sink.old) (K.faults sink.new) }
    ensures later { K.faults sink.old ≤ K.faults sink.new }
{
    let mut rest = lines;
    let mut n: u32 = 1;
    while let Some((line, after)) = first_segment(b'\n', rest) {
        if n >= MOST_LINES {
            return Status::BadScript(u64::from(n) + 1);
        }
        match answer_of_line(alloc, world, line) {
            Ok(Some(answer)) => match sink.put(answer.as_slice()) {
                Ok(()) => {}
                Err(_) => return Status::WriteFault,
            },
            Ok(None) => return Status::BadScript(u64::from(n) + 1),
            Err(NoMemory) => return Status::NoMemory,
        }
        rest = after;
        n += 1;
    }
    put_bill_lines(alloc, world, sink)
}

// The answer to a line, `None` where it is outside the grammar.
fn answer_of_line<M: Machine>(
    alloc: Global,
    world: &mut World<M>,
    line: &[u8],
) -> Result<Option<ByteList>, NoMemory>
    requires { length world.old.fates < 99999 }
    ensures answered { IfOk result (λ answer. IsLineAnswered M.seen M.faults world.old.platforms.roster line.now
        world.old answer world.new) }
    ensures short { OnErr result (IsLineCut M.seen M.faults world.old.platforms.roster line.now world.old world.new) }
    ensures counts { IfOk result (λ answer. IfSome answer
        (λ text. length world.new.fates ≡ length world.old.fates + 1)) }
    ensures roster { world.new.platforms.roster ≡ world.old.platforms.roster }
    ensures spare { world.new.platforms.spare ≡ world.old.platforms.spare }
{
    let Some(event) = event_in(alloc, world.roster(), line)? else {
        return Ok(None);
    };
    Ok(Some(world.step(alloc, event)?))
}

fn put_bill_lines<K: Sink, M: Machine>(alloc: Global, world: &World<M>, sink: &mut K) -> Status
    ensures ends { EndsAsLast result (bill_lines (world_of M.seen world.now))
        (K.written sink.old) (K.written sink.new) }
    ensures write_fault { result ≡ Status.WriteFault → Rose (K.faults sink.old) (K.faults sink.new) }
    ensures later { K.faults sink.old ≤ K.faults sink.new }
{
    let lines = match world.bill_lines(alloc) {
        Ok(lines) => lines,
        Err(NoMemory) => return Status::NoMemory,
    };
    match sink.put(lines.as_slice()) {
        Ok(()) => Status::Done,
        Err(_) => Status::WriteFault,
    }
}
