//! The top call over memory: racks that are too few or don't serve, and a source, a sink and a disk that fail. What it
//! writes where nothing fails is compared by `tools/check_program.py`.
use disk_model::{Failures, MemoryDisk};
use ebl_base::{ByteList, CallList, NoMemory};
use ebl_edge::{MemorySink, MemorySource};
use ebl_run::{Ended, Status, run_ebl};
use journaled_shard::Rack;
use platform_world::{Fate, FateEnd};
use std::alloc::Global;
use std::mem;
use std::process::Abort;
use std::test::Fail;
use test_signer::KeyedRing;

const ROSTER: &str =
    r#"{"roster":{"carriers":[{"code":"OCNL","party":"ALPH/CARRIER","provider":"NMFTA"}],"parties":["ALPH/BANK","ALPH/CARRIER","ALPH/EXPORT"],"platforms":["ALPH"]}}
"#;

const SIGN: &str =
    r#"{"at":"ALPH","do":"SIGN","document":{"carrierCode":"OCNL","carrierCodeListProvider":"NMFTA","isToOrder":true,"transportDocumentReference":"OCNL0000001","transportDocumentTypeCode":"BOL"},"now":1000,"party":"ALPH/CARRIER"}
"#;

const SIGNED: &str =
    r#"{"event":1,"reply":"DONE","sent":[],"view":{"bill":1,"entries":0,"holder":"ALPH/CARRIER","place":"HELD","possessor":"ALPH/CARRIER","state":"SIGNED"}}
"#;

const FIRST_RUN: &str =
    r#"{"at":"ALPH","do":"SIGN","document":{"carrierCode":"OCNL","carrierCodeListProvider":"NMFTA","grossWeight":{"unit":"KGM","value":24000.5},"isToOrder":true,"transportDocumentReference":"OCNL0000001","transportDocumentTypeCode":"BOL"},"now":1000,"party":"ALPH/CARRIER"}
{"at":"ALPH","bill":1,"do":"ISSUE","now":2000,"party":"ALPH/CARRIER","recipient":"ALPH/EXPORT"}
{"at":"ALPH","bill":1,"do":"ENDORSE","now":3000,"party":"ALPH/EXPORT","recipient":"ALPH/BANK"}
"#;

const TRANSFER_TO_BANK: &str =
    r#"{"at":"ALPH","bill":1,"do":"TRANSFER","now":4000,"party":"ALPH/EXPORT","recipient":"ALPH/BANK"}
"#;

const FIRST_THREE_ANSWERS: &str =
    r#"{"event":1,"reply":"DONE","sent":[],"view":{"bill":1,"entries":0,"holder":"ALPH/CARRIER","place":"HELD","possessor":"ALPH/CARRIER","state":"SIGNED"}}
{"event":2,"reply":"DONE","sent":[],"view":{"bill":1,"entries":0,"holder":"ALPH/EXPORT","place":"HELD","possessor":"ALPH/EXPORT","state":"LIVE"}}
{"event":3,"reply":"DONE","sent":[],"view":{"bill":1,"entries":0,"holder":"ALPH/BANK","place":"HELD","possessor":"ALPH/EXPORT","state":"LIVE"}}
"#;

const FOURTH_ANSWER: &str =
    r#"{"event":4,"reply":"DONE","sent":[],"view":{"bill":1,"entries":0,"holder":"ALPH/BANK","place":"HELD","possessor":"ALPH/BANK","state":"LIVE"}}
{"acts":["ALPH"],"bill":1,"end":"ALPH","entries":0,"forked":false,"holder":"ALPH/BANK","possessor":"ALPH/BANK","state":"LIVE"}
"#;

type MemoryRack = Rack<MemoryDisk, KeyedRing>;

type MemoryEnded = Ended<MemoryDisk, KeyedRing>;

// The words of a command line.
fn words_of(alloc: Global, line: &str) -> Result<Vec<String>, NoMemory> {
    let mut words = Vec::new(alloc);
    for word in line.split_whitespace() {
        words.push(String::from_str(alloc, word)?)?;
    }
    Ok(words)
}

fn text_of(alloc: Global, pieces: &[&str]) -> Result<ByteList, NoMemory> {
    let mut text = ByteList::new(alloc);
    for piece in pieces {
        text.extend_from_slice(piece.as_bytes())?;
    }
    Ok(text)
}

// A source of these pieces, whose reads fail at these calls.
fn source(alloc: Global, pieces: &[&str], fails: &[u64]) -> Result<MemorySource, NoMemory> {
    let fails = CallList::from_slice(alloc, fails)?;
    Ok(MemorySource::new(text_of(alloc, pieces)?, fails))
}

// A disk that fails at these calls, with the bytes of these of them done.
fn failures(alloc: Global, fails: &[u64], done: &[u64]) -> Result<Failures, NoMemory> {
    let calls = CallList::from_slice(alloc, fails)?;
    Ok(Failures {
        calls,
        written: CallList::from_slice(alloc, done)?,
    })
}

// A rack whose disk has these bytes, and fails at these calls with the bytes of these of them done.
fn rack(alloc: Global, bytes: &[u8], fails: &[u64], done: &[u64]) -> Result<MemoryRack, NoMemory> {
    let bytes = ByteList::from_slice(alloc, bytes)?;
    let failures = failures(alloc, fails, done)?;
    let disk = MemoryDisk::new(alloc, bytes, failures)?;
    Ok(Rack {
        disk,
        ring: KeyedRing::derived(),
    })
}

fn blank_rack(alloc: Global) -> Result<MemoryRack, NoMemory> {
    rack(alloc, b"", &[], &[])
}

// So many racks with blank disks.
fn racks(alloc: Global, count: usize) -> Result<Vec<MemoryRack>, NoMemory> {
    let mut racks = Vec::with_capacity(alloc, count)?;
    for _ in 0..count {
        racks.push(blank_rack(alloc)?)?;
    }
    Ok(racks)
}

/// One of 48 racks that is no blank one: its place, what its disk has, the calls at which that fails, and those of them
/// whose bytes are done.
#[derive(Clone, Copy)]
struct Other {
    place: usize,
    bytes: &'static [u8],
    fails: &'static [u64],
    done: &'static [u64],
}

// 48 racks, of which one is this.
fn racks_with(rt: &impl Abort, alloc: Global, other: &Other) -> Result<Vec<MemoryRack>, NoMemory> {
    let mut racks = racks(alloc, 48)?;
    match put_other(rt, alloc, &mut racks, other) {
        Ok(()) => Ok(racks),
        Err(NoMemory) => {
            drop(racks);
            Err(NoMemory)
        }
    }
}

// Puts this rack at its place.
fn put_other(
    rt: &impl Abort,
    alloc: Global,
    racks: &mut Vec<MemoryRack>,
    other: &Other,
) -> Result<(), NoMemory> {
    let rack = rack(alloc, other.bytes, other.fails, other.done)?;
    assert!(rt; other.place < racks.len());
    drop(mem::replace(&mut racks[other.place], rack));
    Ok(())
}

// Runs the command of these words.
fn run(
    alloc: Global,
    words: &str,
    source: &mut MemorySource,
    sink: &mut MemorySink,
    racks: Vec<MemoryRack>,
) -> Result<MemoryEnded, NoMemory> {
    let Ok(words) = words_of(alloc, words) else {
        drop(racks);
        return Err(NoMemory);
    };
    Ok(run_ebl(alloc, &words, source, sink, racks))
}

// Runs the command on this text, and compares the bytes written.
fn run_writing(
    rt: &impl Abort,
    alloc: Global,
    words: &str,
    text: &[&str],
    racks: Vec<MemoryRack>,
    written: &[u8],
) -> Result<MemoryEnded, NoMemory> {
    match source(alloc, text, &[]) {
        Ok(mut source) => {
            let ended = run_on(rt, alloc, words, &mut source, racks, written);
            drop(source);
            ended
        }
        Err(NoMemory) => {
            drop(racks);
            Err(NoMemory)
        }
    }
}

// The same on this source.
fn run_on(
    rt: &impl Abort,
    alloc: Global,
    words: &str,
    source: &mut MemorySource,
    racks: Vec<MemoryRack>,
    written: &[u8],
) -> Result<MemoryEnded, NoMemory> {
    let mut sink = MemorySink::new(alloc, CallList::new(alloc));
    let ended = run(alloc, words, source, &mut sink, racks);
    if ended.is_ok() {
        assert!(rt; sink.written() == written);
    }
    drop(sink);
    ended
}

// How often the disk at this place failed.
fn faults_at(ended: &MemoryEnded, place: usize) -> Option<u64> {
    Some(ended.racks.as_slice().get(place)?.disk.faults())
}

const THREE: &str =
    r#"{"roster":{"carriers":[{"code":"OCNL","party":"ALPH/CARRIER","provider":"NMFTA"}],"parties":["ALPH/BANK","ALPH/CARRIER","ALPH/EXPORT","BETA/IMPORT","GAMM/AGENT"],"platforms":["ALPH","BETA","GAMM"]}}
"#;

const LACKING: Status = Status::WrongRacks {
    given: 47,
    needed: 48,
};

// A command's words, the pieces of the text that it reads, how many blank racks it is given, and how it ends. Nothing
// is written.
const COUNTS: [(&str, &[&str], usize, Status); 6] = [
    ("drive", &[THREE], 47, LACKING),
    ("drive", &[THREE, SIGN], 47, LACKING),
    // A bad line is reported first, and the answers before it aren't written.
    ("drive", &[THREE, SIGN, "\n"], 47, Status::BadScript(3)),
    ("drive", &[THREE], 48, Status::Done),
    ("drive", &[THREE], 49, Status::Done),
    ("rehearse 7 1 1", &[], 47, LACKING),
];

fn count_row(
    rt: &impl Abort,
    alloc: Global,
    words: &str,
    text: &[&str],
    count: usize,
    status: Status,
) -> Result<(), NoMemory> {
    let ended = run_writing(rt, alloc, words, text, racks(alloc, count)?, b"")?;
    assert_eq!(rt; ended.status, status);
    assert_eq!(rt; ended.racks.len(), count);
    drop(ended);
    Ok(())
}

#[test]
fn too_few_racks(rt: HostRuntime) -> Result<(), Fail> {
    let alloc = rt.alloc();
    for &(words, text, count, status) in &COUNTS {
        count_row(&rt, alloc, words, text, count, status)?;
    }
    Ok(())
}

// A disk that doesn't serve: its place, its bytes and the calls at which it fails; and how a script ends on it, and one
// with a bad third line.
const UNFIT: [(usize, &[u8], &[u64], Status, Status); 5] = [
    (
        5,
        b"\x01\x00",
        &[],
        Status::NotBlank(5),
        Status::BadScript(3),
    ),
    (47, b"\x00", &[], Status::NotBlank(47), Status::BadScript(3)),
    // It can't be measured; it isn't made a journal.
    (5, b"", &[0], Status::OpenFault(5), Status::OpenFault(5)),
    (0, b"", &[2], Status::OpenFault(0), Status::OpenFault(0)),
    (47, b"", &[3], Status::OpenFault(47), Status::OpenFault(47)),
];

// A script ends so with one disk that doesn't serve.
fn unfit_row(
    rt: &impl Abort,
    alloc: Global,
    script: &[&str],
    other: &Other,
    status: Status,
) -> Result<(), NoMemory> {
    let racks = racks_with(rt, alloc, other)?;
    let ended = run_writing(rt, alloc, "drive", script, racks, b"")?;
    tell_unfit(rt, &ended, other, status);
    drop(ended);
    Ok(())
}

// All racks came back, no event was run, and the disk failed as often as it was to.
fn tell_unfit(rt: &impl Abort, ended: &MemoryEnded, other: &Other, status: Status) {
    let Other { place, fails, .. } = *other;
    assert_eq!(rt; ended.status, status, "at disk {place}");
    assert_eq!(rt; ended.racks.len(), 48);
    assert!(rt; ended.fates.is_empty());
    assert_eq!(rt;
        faults_at(ended, place),
        Some(fails.len() as u64),
        "at disk {place}"
    );
}

#[test]
fn disks_that_do_not_serve(rt: HostRuntime) -> Result<(), Fail> {
    let alloc = rt.alloc();
    for &(place, bytes, fails, status, status_of_bad) in &UNFIT {
        let other = Other {
            place,
            bytes,
            fails,
            done: &[],
        };
        unfit_row(&rt, alloc, &[THREE, SIGN], &other, status)?;
        unfit_row(&rt, alloc, &[THREE, SIGN, "{}\n"], &other, status_of_bad)?;
    }
    Ok(())
}

const DELIVERED_AGAIN: &str =
    r#"{"at":"ALPH","bill":1,"do":"ISSUE","now":2000,"party":"ALPH/CARRIER","recipient":"ALPH/EXPORT"}
{"at":"ALPH","bill":1,"do":"ENDORSE","now":3000,"party":"ALPH/EXPORT","recipient":"BETA/IMPORT"}
{"at":"ALPH","bill":1,"do":"TRANSFER","now":4000,"party":"ALPH/EXPORT","recipient":"BETA/IMPORT"}
{"deliver":1}
{"deliver":1}
{"deliver":2}
"#;

const BEFORE_THE_FAULT: &str =
    r#"{"event":2,"reply":"DONE","sent":[],"view":{"bill":1,"entries":0,"holder":"ALPH/EXPORT","place":"HELD","possessor":"ALPH/EXPORT","state":"LIVE"}}
{"event":3,"reply":"DONE","sent":[],"view":{"bill":1,"entries":0,"holder":"BETA/IMPORT","place":"HELD","possessor":"ALPH/EXPORT","state":"LIVE"}}
{"event":4,"reply":"DONE","sent":[1],"view":{"bill":1,"entries":0,"holder":"BETA/IMPORT","place":"PARTING","possessor":"BETA/IMPORT","state":"LIVE"}}
{"event":5,"reply":"DISK","sent":[]}
"#;

const BEHIND_THE_FAULT: &str =
    r#"{"event":7,"reply":"DONE","sent":[],"view":{"bill":1,"entries":1,"holder":"BETA/IMPORT","place":"GONE","possessor":"BETA/IMPORT","state":"LIVE"}}
{"acts":["BETA"],"bill":1,"end":"BETA","entries":1,"forked":false,"holder":"BETA/IMPORT","possessor":"BETA/IMPORT","state":"LIVE"}
"#;

// The first append at BETA is that of a Taken. Behind one call of the measuring and three of the opening, its write of
// the gate is call 6. The bill's shard has the number 4, so its disk is at 20.
const GATE_NOT_WRITTEN: Other = Other {
    place: 20,
    bytes: b"",
    fails: &[6],
    done: &[],
};

const GATE_WRITTEN: Other = Other {
    place: 20,
    bytes: b"",
    fails: &[6],
    done: &[6],
};

// The same start again is answered so, and the shards of these numbers kept their loose frames then.
fn gate_row(
    rt: &impl Abort,
    alloc: Global,
    other: &Other,
    answer: &str,
    kept: &[u32],
) -> Result<(), NoMemory> {
    let written = text_of(alloc, &[SIGNED, BEFORE_THE_FAULT, answer, BEHIND_THE_FAULT])?;
    let script = [THREE, SIGN, DELIVERED_AGAIN];
    let racks = racks_with(rt, alloc, other)?;
    let ended = run_writing(rt, alloc, "drive", &script, racks, written.as_slice())?;
    tell_gate(rt, &ended, other, kept);
    drop(ended);
    Ok(())
}

// The run was done, and the disk failed once.
fn tell_gate(rt: &impl Abort, ended: &MemoryEnded, other: &Other, kept: &[u32]) {
    assert_eq!(rt; ended.status, Status::Done);
    assert_eq!(rt; faults_at(ended, other.place), Some(1));
    tell_fates(rt, ended.fates.as_slice(), kept);
}

// The fifth of seven events failed, and at the sixth the shards of these numbers kept their loose frames.
fn tell_fates(rt: &impl Abort, fates: &[Fate], kept: &[u32]) {
    assert!(rt; fates.len() == 7);
    assert_eq!(rt; fates[4].end, FateEnd::Failed);
    assert_eq!(rt; fates[5].end, FateEnd::Whole);
    assert!(rt; fates[5].kept.as_slice() == kept);
}

#[test]
fn failing_gate_write(rt: HostRuntime) -> Result<(), Fail> {
    let alloc = rt.alloc();
    // A frame that was written whole is kept when the journal is read again.
    gate_row(
        &rt,
        alloc,
        &GATE_WRITTEN,
        "{\"event\":6,\"reply\":\"DUPE\",\"sent\":[2],\"standing\":false}\n",
        &[4],
    )?;
    gate_row(
        &rt,
        alloc,
        &GATE_NOT_WRITTEN,
        "{\"event\":6,\"reply\":\"RECE\",\"sent\":[2],\"standing\":false}\n",
        &[],
    )?;
    Ok(())
}

const SCRIPT: [&str; 3] = [ROSTER, FIRST_RUN, TRANSFER_TO_BANK];

// How the script ends over a source whose reads fail at these calls, and this sink.
fn status_over(alloc: Global, fails: &[u64], sink: &mut MemorySink) -> Result<Status, NoMemory> {
    let mut source = source(alloc, &SCRIPT, fails)?;
    let status = status_on(alloc, &mut source, sink);
    drop(source);
    status
}

fn status_on(
    alloc: Global,
    source: &mut MemorySource,
    sink: &mut MemorySink,
) -> Result<Status, NoMemory> {
    let ended = run(alloc, "drive", source, sink, racks(alloc, 16)?)?;
    let status = ended.status;
    drop(ended);
    Ok(status)
}

// The sink fails at this call.
fn put_row(rt: &impl Abort, alloc: Global, call: u64, whole: &[u8]) -> Result<(), NoMemory> {
    let mut sink = MemorySink::tearing(alloc, CallList::from_slice(alloc, &[call])?);
    let told = tell_put(rt, alloc, &mut sink, call, whole);
    drop(sink);
    told
}

fn tell_put(
    rt: &impl Abort,
    alloc: Global,
    sink: &mut MemorySink,
    call: u64,
    whole: &[u8],
) -> Result<(), NoMemory> {
    let status = status_over(alloc, &[], sink)?;
    // Four answers and the bill lines are put.
    let wanted = if call < 5 {
        Status::WriteFault
    } else {
        Status::Done
    };
    assert_eq!(rt; status, wanted, "at put {call}");
    assert!(rt; whole.starts_with(sink.written()), "at put {call}");
    Ok(())
}

// The source fails at this call.
fn read_row(rt: &impl Abort, alloc: Global, call: u64) -> Result<(), NoMemory> {
    let mut sink = MemorySink::new(alloc, CallList::new(alloc));
    let told = tell_read(rt, alloc, &mut sink, call);
    drop(sink);
    told
}

fn tell_read(
    rt: &impl Abort,
    alloc: Global,
    sink: &mut MemorySink,
    call: u64,
) -> Result<(), NoMemory> {
    let status = status_over(alloc, &[call], sink)?;
    // The script comes in one read, and its end in another.
    let wanted = if call < 2 {
        Status::ReadFault
    } else {
        Status::Done
    };
    assert_eq!(rt; status, wanted, "at read {call}");
    assert_eq!(rt; sink.written().is_empty(), call < 2, "at read {call}");
    Ok(())
}

#[test]
fn faults_of_the_outside(rt: HostRuntime) -> Result<(), Fail> {
    let alloc = rt.alloc();
    let whole = text_of(alloc, &[FIRST_THREE_ANSWERS, FOURTH_ANSWER])?;
    for call in 0..7 {
        put_row(&rt, alloc, call, whole.as_slice())?;
    }
    for call in 0..4 {
        read_row(&rt, alloc, call)?;
    }
    Ok(())
}
