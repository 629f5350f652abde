//! The program around the top call: its words, its exit, and its line on standard error.
ghost use Rattle.std.specs.Prelude.{◌≡◌, true, IfOk};
ghost use Rattle.ebl_run.specs.Racks.{AllTell};

use canonical_json::ReadError;
use disk_model::{Failures, MemoryDisk};
use ebl_base::{ByteList, CallList, NoMemory};
use ebl_edge::{Sink, standard_input, standard_output, words};
use ebl_run::{Status, exit_of, run_ebl};
use journaled_shard::Rack;
use std::alloc::Global;
use std::io;
use std::io::Input;
use std::process::ExitCode;
use std::rt::Env;
use test_signer::KeyedRing;

const HELP: &str = "ebl: electronic bills of lading on title platforms

usage:
  ebl drive       reads a script over several platforms from standard input, one JSON
                  object a line, and writes a line for each event, and then a line for
                  each bill
  ebl canon       reads one JSON value from standard input, and writes its canonical
                  text (RFC 8785) and that text's SHA-256 checksum
  ebl rehearse SEED BILLS STEPS
                  runs three platforms with commands, deliveries, resends and restarts
                  that are drawn from a seed, and writes one line that sums it up
  ebl --help      writes this text
  ebl --version   writes the version

a script's first line has the roster, each later one an event, by one of these members:
  do        a party's command: SIGN, ISSUE, ENDORSE, TRANSFER, SURRENDER_FOR_DELIVERY,
            SURRENDER_FOR_AMENDMENT, SURRENDER_ACCEPTED, SURRENDER_REFUSED, ATTACH
  deliver   a message that was sent comes to a platform
  foreign   bytes from outside: START, PUT, FINISH, START_REPLY, FINISH_REPLY
  ask, resend, restart, show

examples:
  ebl drive < examples/first_run.jsonl
  printf '{}' | ebl canon
  ebl rehearse 7 50 2000

limits: a seed of at most 9,223,372,036,854,775,807, 1 to 1,000 bills, 1 to 20,000 steps,
as decimal digits with no zero in front; 67,108,864 bytes of input, 100,000 lines of a
script; whole numbers of at most 2^53 - 1 in size, decimals of at most 15 digits, no
exponents; no name twice in an object; values nest at most 127 deep. The input is read
to its end before the first line is written.

exits: 0 done; 2 usage; 3 a line is not a script line; 4 the input is too long;
5 JSON is refused; 6 too few racks; 7 a disk is not blank; 8 a disk cannot be opened;
10 read fault; 11 write fault; 12 no memory
";

/// Sixteen racks for each of eight platforms.
const MOST_RACKS: usize = 128;

const VERSION: &str = "ebl 0.1.0\n";

/// Runs the program by its words, writes the lines of its status to standard error, and answers its exit.
pub fn run_program<R: Alloc<A = Global> + Env + Eprint + Input + Print>(rt: &R) -> ExitCode {
    let status = match words(rt) {
        Ok(words) => run_words(rt, &words),
        Err(fault) => fault_status(&fault),
    };
    // Where standard error fails, nothing is left to tell it but the exit.
    let _ = report(rt, status);
    ExitCode::from(exit_of(status))
}

// A word that is no text is a faulty command line.
fn fault_status(fault: &io::Error) -> Status {
    match fault.kind() {
        io::ErrorKind::OutOfMemory => Status::NoMemory,
        _ => Status::Usage,
    }
}

fn run_words<R: Alloc<A = Global> + Input + Print>(rt: &R, words: &Vec<String>) -> Status {
    let mut sink = standard_output(rt);
    match words.as_slice() {
        [word] if word.as_str() == "--help" => put_text(&mut sink, HELP),
        [word] if word.as_str() == "--version" => put_text(&mut sink, VERSION),
        _ => match racks(rt.alloc()) {
            Ok(racks) => {
                let mut source = standard_input(rt);
                run_ebl(rt.alloc(), words, &mut source, &mut sink, racks).status
            }
            Err(NoMemory) => Status::NoMemory,
        },
    }
}

// The racks of the most platforms that a roster has: blank disks in memory, which grow, and keys that anybody can
// derive, which give no security.
fn racks(alloc: Global) -> Result<Vec<Rack<MemoryDisk, KeyedRing>>, NoMemory>
    ensures { IfOk result (λ racks. AllTell (λ _. true) racks.items) }
{
    let mut racks = Vec::with_capacity(alloc, MOST_RACKS)?;
    for _ in 0..MOST_RACKS {
        racks.push(rack(alloc)?)?;
    }
    Ok(racks)
}

fn rack(alloc: Global) -> Result<Rack<MemoryDisk, KeyedRing>, NoMemory> {
    let never = Failures {
        calls: CallList::new(alloc),
        written: CallList::new(alloc),
    };
    let disk = MemoryDisk::new(alloc, ByteList::new(alloc), never)?;
    Ok(Rack {
        disk,
        ring: KeyedRing::derived(),
    })
}

fn put_text<K: Sink>(sink: &mut K, text: &str) -> Status {
    match sink.put(text.as_bytes()) {
        Ok(()) => Status::Done,
        Err(_) => Status::WriteFault,
    }
}

fn report<R: Eprint>(rt: &R, status: Status) -> io::Result<()> {
    match status {
        Status::Done => Ok(()),
        Status::Usage => eprintln!(rt; "ebl: usage\nebl: the words are in ebl --help"),
        Status::BadScript(n) => eprintln!(rt; "ebl: line {n} is not a script line"),
        Status::TooLong => eprintln!(rt; "ebl: the input is too long"),
        Status::BadJson(error) => eprintln!(rt; "ebl: JSON is refused: {}", error_name(error)),
        Status::WrongRacks { given, needed } => eprintln!(rt;
            "ebl: {given} racks, {needed} needed"
        ),
        Status::NotBlank(place) => eprintln!(rt; "ebl: disk {place} is not blank"),
        Status::OpenFault(place) => eprintln!(rt; "ebl: disk {place} cannot be opened"),
        Status::ReadFault => eprintln!(rt; "ebl: read fault"),
        Status::WriteFault => eprintln!(rt; "ebl: write fault"),
        Status::NoMemory => eprintln!(rt; "ebl: no memory"),
    }
}

fn error_name(error: ReadError) -> &'static str {
    match error {
        ReadError::NotJson => "NOT_JSON",
        ReadError::Repeated => "REPEATED",
        ReadError::Fraction => "FRACTION",
        ReadError::Range => "RANGE",
        ReadError::NoMemory => "NO_MEMORY",
    }
}
