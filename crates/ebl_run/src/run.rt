//! The top call: words, a source, a sink and racks come in, and what the command of the words writes goes out.
ghost use Rattle.std.specs.Prelude.{◌≡◌, ◌≢◌, ◌↔◌, ◌<◌, ◌≤◌, ℕ, List, None, Some, [], drop, false, true, length, map, option_map, vec_len, IfErr, IfOk, IfSome, IsErrOf};
ghost use Rattle.ebl_base.specs.Faults.{Rose};
ghost use Rattle.ebl_base.specs.Segments.{segments_of};
ghost use Rattle.platform_world.specs.Opening.{RoseAt};
ghost use Rattle.platform_world.specs.Run.{RunsScript};
ghost use Rattle.ebl_run.specs.Command.{IsInRange, command_of, reads_source};
ghost use Rattle.ebl_run.specs.declared.reading.ReadError.TheVariants.{ReadFault, TooLong};
ghost use Rattle.ebl_run.specs.Drive.{first_bad_line, racks_for, racks_needed, serve};
ghost use Rattle.ebl_run.specs.Needed.{racks_wanted, racks_wanted_by};
ghost use Rattle.ebl_run.specs.Racks.{AllTell, AreBack, keys_of, lengths_of, written_among};
ghost use Rattle.ebl_run.specs.Rehearsed.{Rehearsed};
ghost use Rattle.ebl_run.specs.Safe.{AreHandedBack, Ran, RanSafely};
ghost use Rattle.ebl_run.specs.Status.{EndsAs, IsAfterRead, IsBeforeRun, IsBeforeWrite, IsCausedBy, IsEndOf, MayEnd, Outputs, status_for};
ghost use Rattle.rehearsal.specs.Roster.{made_roster};

use crate::canon::canon;
use crate::command::{Command, command_of};
use crate::drive::drive;
use crate::ended::Ended;
use crate::reading::{MOST_BYTES, ReadError, read_all};
use crate::rehearse::rehearse;
use crate::status::Status;
use disk_model::Disk;
use ebl_edge::{Sink, Source};
use journaled_shard::Rack;
use signed_envelope::KeyRing;
use std::alloc::Global;
use world_safety::every_run_of_a_script_stays_safe;

/// Runs the command that the words name over the source. `drive` takes a script over several platforms, and writes the
/// line that answers each of its events, and then a line for each bill that it signed. `canon` takes one JSON value,
/// and writes its canonical text and its checksum, each in a line. `rehearse` takes three numbers, and writes the line
/// that sums up a generated run; it reads nothing.
///
/// The words don't include the program's name. The source is read to its end before the first line is written. Under
/// `drive` and `rehearse` each platform of the roster takes sixteen racks, in the roster's order, whose disks are blank
/// and are made journals of its shards; further racks stay untouched. All racks come back in their order, and with them
/// the fates of the events that were run.
pub fn run_ebl<S: Source, K: Sink, D: Disk + Drop, G: KeyRing + Drop>(
    alloc: Global,
    words: &Vec<String>,
    source: &mut S,
    sink: &mut K,
    racks: Vec<Rack<D, G>>,
) -> Ended<D, G>
    requires told { AllTell D.tells racks.items }
    // With which statuses a command may end.
    ensures end { MayEnd (command_of words.now.items) result.status }
    ensures usage { (result.status ≡ Status.Usage) ↔ (command_of words.now.items ≡ None) }
    ensures read_fault { result.status ≡ Status.ReadFault → Rose (S.faults source.old) (S.faults source.new) }
    ensures too_long { result.status ≡ Status.TooLong
        → IfSome (S.left source.old) (λ script. MOST_BYTES < length script) }
    ensures not_too_long { option_map reads_source (command_of words.now.items) ≡ Some true → IsAfterRead result.status
        → IfSome (S.left source.old) (λ script. length script ≤ MOST_BYTES) }
    ensures open_fault { (place : ℕ) → result.status ≡ Status.OpenFault place
        → RoseAt D.faults place racks.items result.racks }
    ensures write_fault { result.status ≡ Status.WriteFault → Rose (K.faults sink.old) (K.faults sink.new) }

    // Why a script ends so: its first bad line, the racks that came for its roster, and the first whose disk isn't
    // blank.
    ensures cause { command_of words.now.items ≡ Some Command.Drive → IfSome (S.left source.old) (λ script.
        IsCausedBy result.status (first_bad_line (segments_of 10 script)) (length racks.items)
        (racks_for (segments_of 10 script))
        (written_among (racks_for (segments_of 10 script)) (lengths_of D.seen racks.items))) }

    // So does a rehearsal, of which no line is bad.
    ensures rehearsal_cause { (seed bills steps : ℕ)
        → command_of words.now.items ≡ Some (Command.Rehearse seed bills steps) → IsCausedBy result.status None
        (length racks.items) (racks_needed made_roster)
        (written_among (racks_needed made_roster) (lengths_of D.seen racks.items)) }

    // What the status says of the bytes written, wherever the source tells its bytes. Where the sink doesn't tell, it
    // says nothing.
    ensures ends { IfSome (S.left source.old) (λ script.
        EndsAs result.status (Outputs (command_of words.now.items) (keys_of G.keys racks.items)
        (lengths_of D.seen racks.items) result.fates script) (K.written sink.old) (K.written sink.new)) }

    // The same of a rehearsal, whether the source tells or not: what was written is its line. Where the sink takes that
    // or fails, the rehearsal is whole: its events have the fates that come back, the disks have its last diaries, and
    // its events were answered DISK and SIGN no more often than disks and rings failed.
    ensures rehearsed { (seed bills steps : ℕ)
        → command_of words.now.items ≡ Some (Command.Rehearse seed bills steps)
        → Rehearsed D.seen D.may_leave D.faults G.keys G.faults seed bills steps racks.items result
        (K.written sink.old) (K.written sink.new) }

    // What was written of a script is the text of a run in which no two platforms ever let somebody act on one bill.
    // The disks have its last diaries, and its events were answered DISK and SIGN no more often than disks and rings
    // failed.
    ensures safe { command_of words.now.items ≡ Some Command.Drive → IfSome (S.left source.old) (λ script.
        serve (racks_for (segments_of 10 script)) (lengths_of D.seen racks.items) ≡ true
        → RanSafely D.seen D.may_leave D.faults G.keys G.faults script racks.items result
        (K.written sink.old) (K.written sink.new)) }
    ensures back { AreBack D.faults G.faults racks.items result.racks }
    ensures further { IfSome (S.left source.old) (λ script.
        drop (racks_wanted_by (command_of words.now.items) script) result.racks
        ≡ drop (racks_wanted_by (command_of words.now.items) script) racks.items) }
    ensures untouched { IsBeforeWrite result.status → (sink.new ≡ sink.old) × (result.racks ≡ racks.items) }
    ensures unrun { IsBeforeRun result.status → result.fates ≡ [] }
    ensures unread { option_map reads_source (command_of words.now.items) ≢ Some true → source.new ≡ source.old }
    ensures source_later { S.faults source.old ≤ S.faults source.new }
    ensures sink_later { K.faults sink.old ≤ K.faults sink.new }
{
    every_run_of_a_script_stays_safe();
    let Some(command) = command_of(words) else {
        return Ended::at_once(alloc, Status::Usage, racks);
    };
    match text_for(alloc, command, source) {
        Ok(text) => run_command(alloc, command, text.as_slice(), sink, racks),
        Err(fault) => Ended::at_once(alloc, status_for(fault), racks),
    }
}

// The end where the source wasn't read.
fn status_for(fault: ReadError) -> Status
    ensures { result ≡ status_for fault }
{
    match fault {
        ReadError::ReadFault => Status::ReadFault,
        ReadError::TooLong => Status::TooLong,
        ReadError::NoMemory => Status::NoMemory,
    }
}

// What a command reads: the whole source, or nothing.
fn text_for<S: Source>(
    alloc: Global,
    command: Command,
    source: &mut S,
) -> Result<Vec<u8>, ReadError>
    ensures ok { IfOk result (λ bytes. reads_source command ≡ true
        → IfSome (S.left source.old) (λ script. bytes.items ≡ script)) }
    ensures fits { IfOk result (λ bytes. vec_len bytes ≤ MOST_BYTES) }
    ensures read_fault { IsErrOf result ReadFault → Rose (S.faults source.old) (S.faults source.new) }
    ensures too_long { IsErrOf result TooLong → IfSome (S.left source.old) (λ script. MOST_BYTES < length script) }
    ensures read { IfErr result (λ _. reads_source command ≡ true) }
    ensures unread { reads_source command ≡ false → source.new ≡ source.old }
    ensures later { S.faults source.old ≤ S.faults source.new }
{
    if command.reads_source() {
        read_all(alloc, source)
    } else {
        Ok(Vec::new(alloc))
    }
}

fn run_command<K: Sink, D: Disk + Drop, G: KeyRing + Drop>(
    alloc: Global,
    command: Command,
    text: &[u8],
    sink: &mut K,
    racks: Vec<Rack<D, G>>,
) -> Ended<D, G>
    requires told { AllTell D.tells racks.items }
    requires range { IsInRange command }
    ensures cause { command ≡ Command.Drive → IsCausedBy result.status (first_bad_line (segments_of 10 text.now))
        (length racks.items) (racks_for (segments_of 10 text.now))
        (written_among (racks_for (segments_of 10 text.now)) (lengths_of D.seen racks.items)) }
    ensures rehearsal_cause { (seed bills steps : ℕ) → command ≡ Command.Rehearse seed bills steps
        → IsCausedBy result.status None (length racks.items) (racks_needed made_roster)
        (written_among (racks_needed made_roster) (lengths_of D.seen racks.items)) }
    ensures ends { EndsAs result.status (Outputs (Some command) (keys_of G.keys racks.items)
        (lengths_of D.seen racks.items) result.fates text.now) (K.written sink.old) (K.written sink.new) }
    ensures rehearsed { (seed bills steps : ℕ) → command ≡ Command.Rehearse seed bills steps
        → Rehearsed D.seen D.may_leave D.faults G.keys G.faults seed bills steps racks.items result
        (K.written sink.old) (K.written sink.new) }
    ensures ran { command ≡ Command.Drive
        → serve (racks_for (segments_of 10 text.now)) (lengths_of D.seen racks.items) ≡ true
        → Ran D.seen D.may_leave D.faults G.keys G.faults
        (λ fates run. RunsScript text.now (keys_of G.keys racks.items) fates run) racks.items result
        (K.written sink.old) (K.written sink.new) }
    ensures racks { AreHandedBack D.faults G.faults (racks_wanted command text.now) racks.items result }
    ensures unwritten { IsBeforeWrite result.status → sink.new ≡ sink.old }
    ensures end { IsEndOf command result.status }
    ensures write_fault { result.status ≡ Status.WriteFault → Rose (K.faults sink.old) (K.faults sink.new) }
    ensures later { K.faults sink.old ≤ K.faults sink.new }
{
    match command {
        Command::Drive => drive(alloc, text, sink, racks),
        Command::Canon => Ended::at_once(alloc, canon(alloc, text, sink), racks),
        Command::Rehearse { seed, bills, steps } => rehearse(
            alloc, seed, bills, steps, sink, racks,
        ),
    }
}
