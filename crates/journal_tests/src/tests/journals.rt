//! What no contract says: each failing device call, and tables of journals made by hand.
ghost use Rattle.std.specs.Prelude.{◌<◌, ◌≤◌, length};

use crate::tests::{disk_of, failures, make_folder, same};
use bill_journal::{AppendFault, FrameBytes, Framed, Journal, OpenFault};
use disk_model::{Disk, FileDisk, MemoryDisk};
use ebl_base::{Copied, NoMemory};
use std::alloc::Global;
use std::fs;
use std::fs::File;
use std::process::Abort;
use std::test::Fail;

// Three frames: a content of one byte, one of two bytes, and an empty one.
const THREE: [u8; 20] = *b"\x01\x01\0\0\0\x01a\x01\0\0\0\x02bc\x01\0\0\0\0\0";

// The first two of them.
const TWO: [u8; 15] = *b"\x01\x01\0\0\0\x01a\x01\0\0\0\x02bc\0";

// What was found on a disk.
#[derive(Clone, Copy, Debug, PartialEq, Eq)]
enum Found {
    Frames(usize),
    Fault(OpenFault),
}

// A disk of which no call fails.
fn sound_disk(alloc: Global, bytes: &[u8]) -> Result<MemoryDisk, NoMemory> {
    let failures = failures(alloc, &[], &[])?;
    disk_of(alloc, bytes, failures)
}

// What a disk of which no call fails is opened as.
type Opening = Result<(Journal<MemoryDisk>, FrameBytes), (MemoryDisk, OpenFault)>;

fn open(alloc: Global, bytes: &[u8]) -> Result<Opening, NoMemory> {
    Ok(Journal::open(alloc, sound_disk(alloc, bytes)?))
}

// The same where calls fail.
fn open_failing(alloc: Global, bytes: &[u8], fails: &[u64]) -> Result<Opening, NoMemory> {
    let failures = failures(alloc, fails, &[])?;
    Ok(Journal::open(alloc, disk_of(alloc, bytes, failures)?))
}

fn found_in(opening: &Opening) -> Found {
    match opening {
        Ok((_, frames)) => Found::Frames(frames.len()),
        Err((_, fault)) => Found::Fault(*fault),
    }
}

fn answer(alloc: Global, bytes: &[u8]) -> Result<Found, NoMemory> {
    let opening = open(alloc, bytes)?;
    let found = found_in(&opening);
    drop(opening);
    Ok(found)
}

fn tell_answer<R: Abort>(rt: &R, alloc: Global, bytes: &[u8], expected: Found) -> Result<(), Fail> {
    same(rt, answer(alloc, bytes)?, expected);
    Ok(())
}

// Disks, and what they are opened as.
const OPENED: [(&[u8], Found); 5] = [
    (b"", Found::Frames(0)),
    (b"\x01\0\xff", Found::Frames(0)),
    (
        b"\x01\x01\0\0\0\x09\x05",
        Found::Fault(OpenFault::Damaged(1)),
    ),
    (b"\x02\0", Found::Fault(OpenFault::Damaged(0))),
    (b"\x01", Found::Fault(OpenFault::Damaged(1))),
];

#[test]
fn disks_that_are_opened(rt: HostRuntime) -> Result<(), Fail> {
    for &(bytes, found) in &OPENED {
        tell_answer(&rt, rt.alloc(), bytes, found)?;
    }
    Ok(())
}

// A disk, a call that fails, and what it is opened as. A disk that isn't blank is measured, synced and read; a blank
// one is measured, written and synced.
const FAILING_OPENINGS: [(&[u8], u64, Found); 8] = [
    (b"\x01\0", 0, Found::Fault(OpenFault::Disk)),
    (b"\x01\0", 1, Found::Fault(OpenFault::Disk)),
    (b"\x01\0", 2, Found::Fault(OpenFault::Disk)),
    (b"\x01\0", 3, Found::Frames(0)),
    (b"", 0, Found::Fault(OpenFault::Disk)),
    (b"", 1, Found::Fault(OpenFault::Disk)),
    (b"", 2, Found::Fault(OpenFault::Disk)),
    (b"", 3, Found::Frames(0)),
];

#[test]
fn each_device_call_of_an_opening_fails(rt: HostRuntime) -> Result<(), Fail> {
    for &(bytes, call, found) in &FAILING_OPENINGS {
        tell_failing(&rt, rt.alloc(), bytes, call, found)?;
    }
    Ok(())
}

fn tell_failing(
    rt: &impl Abort,
    alloc: Global,
    bytes: &[u8],
    call: u64,
    expected: Found,
) -> Result<(), Fail> {
    let opening = open_failing(alloc, bytes, &[call])?;
    let found = found_in(&opening);
    drop(opening);
    same(rt, found, expected);
    Ok(())
}

// The fresh journal on a disk of which calls fail.
fn opened(alloc: Global, fails: &[u64], done: &[u64]) -> Result<Journal<MemoryDisk>, Fail> {
    let failures = failures(alloc, fails, done)?;
    opened_on(alloc, disk_of(alloc, b"\x01\0", failures)?)
}

fn opened_on(alloc: Global, disk: MemoryDisk) -> Result<Journal<MemoryDisk>, Fail> {
    match Journal::open(alloc, disk) {
        Ok((journal, _)) => Ok(journal),
        Err((disk, _)) => {
            drop(disk);
            Err(Fail::new("the journal was refused"))
        }
    }
}

// What an append comes to. Steps of a test are calls of their own, since a caller carries on what a contract says.
fn append<D: Disk>(
    alloc: Global,
    journal: &mut Journal<D>,
    content: &[u8],
) -> Result<Option<AppendFault>, Fail>
    requires { length content.now ≤ 16777216 }
{
    let frame = Framed::new(alloc, content)?;
    if journal.is_loose() {
        return Err(Fail::new("the journal is to be read again"));
    }
    Ok(journal.append(&frame, false).err())
}

// What a journal is read again as.
fn read_again(alloc: Global, journal: &mut Journal<MemoryDisk>) -> Result<Found, NoMemory> {
    match journal.reread(alloc) {
        Ok(frames) => {
            let copy = frames.copy(alloc);
            drop(frames);
            Ok(Found::Frames(copy?.len()))
        }
        Err(fault) => Ok(Found::Fault(fault)),
    }
}

#[test]
fn a_blank_disk_becomes_a_journal(rt: HostRuntime) -> Result<(), Fail> {
    match open(rt.alloc(), b"")? {
        Ok((journal, frames)) => {
            tell_fresh(&rt, journal, &frames);
            Ok(())
        }
        Err((disk, _)) => {
            drop(disk);
            Err(Fail::new("a blank disk was refused"))
        }
    }
}

fn tell_fresh<R: Abort>(rt: &R, journal: Journal<MemoryDisk>, frames: &FrameBytes) {
    same(rt, frames.len(), 0);
    same(rt, journal.is_loose(), false);
    tell_bytes(rt, journal, b"\x01\0");
}

// The bytes of a journal's disk.
fn tell_bytes<R: Abort>(rt: &R, journal: Journal<MemoryDisk>, bytes: &[u8]) {
    let disk = journal.close();
    same(rt, disk.bytes(), bytes);
    drop(disk);
}

// The disk of a fresh journal after an append, and whether that was done.
fn appended(alloc: Global, content: &[u8], settling: bool) -> Result<(MemoryDisk, bool), NoMemory>
    requires { length content.now ≤ 16777216 }
{
    let frame = Framed::new(alloc, content)?.copy(alloc)?;
    with_frame(alloc, &frame, settling)
}

fn with_frame(
    alloc: Global,
    frame: &Framed,
    settling: bool,
) -> Result<(MemoryDisk, bool), NoMemory> {
    match Journal::open(alloc, sound_disk(alloc, b"")?) {
        Ok((mut journal, _)) => {
            let done = journal.append(frame, settling).is_ok();
            Ok((journal.close(), done))
        }
        Err((disk, _)) => Ok((disk, false)),
    }
}

#[test]
fn a_frame_of_65_bytes(rt: HostRuntime) -> Result<(), Fail> {
    let (disk, done) = appended(rt.alloc(), &[7; 65], false)?;
    same(&rt, done, true);
    tell_frame(&rt, disk.bytes());
    drop(disk);
    Ok(())
}

fn tell_frame<R: Abort>(rt: &R, bytes: &[u8]) {
    same(rt, bytes.len(), 72);
    same(rt, bytes.starts_with(b"\x01\x01\0\0\0\x41\x07"), true);
    same(rt, bytes.ends_with(b"\x07\0"), true);
}

// Whether a frame of so many bytes goes into a fresh journal, which is as long then as it must be.
fn room_row(
    rt: &impl Abort,
    alloc: Global,
    len: usize,
    settling: bool,
    fits: bool,
) -> Result<(), Fail>
    requires { len ≤ 16777216 }
{
    let content = vec![in alloc; 7; len]?;
    let (done, bytes) = told_room(alloc, &content, settling)?;
    same(rt, done, fits);
    same(rt, bytes, if fits { len + 7 } else { 2 });
    Ok(())
}

// Whether an append to a fresh journal was done, and how long that is then.
fn told_room(alloc: Global, content: &[u8], settling: bool) -> Result<(bool, usize), NoMemory>
    requires { length content.now ≤ 16777216 }
{
    let (disk, done) = appended(alloc, content, settling)?;
    let len = disk.bytes().len();
    drop(disk);
    Ok((done, len))
}

#[test]
fn the_room_of_both_kinds(rt: HostRuntime) -> Result<(), Fail> {
    let alloc = rt.alloc();
    room_row(&rt, alloc, 14_680_057, false, true)?;
    room_row(&rt, alloc, 14_680_058, false, false)?;
    room_row(&rt, alloc, 14_680_058, true, true)?;
    room_row(&rt, alloc, 16_777_209, true, true)?;
    room_row(&rt, alloc, 16_777_210, true, false)
}

// What the first `len` bytes of the three frames are opened as.
fn prefix_answer(len: usize) -> Found {
    match len {
        0 => Found::Frames(0),
        1..=6 => Found::Fault(OpenFault::Damaged(1)),
        7..=13 => Found::Fault(OpenFault::Damaged(7)),
        14..=18 => Found::Fault(OpenFault::Damaged(14)),
        19 => Found::Fault(OpenFault::Damaged(19)),
        _ => Found::Frames(3),
    }
}

#[test]
fn every_prefix_of_three_frames(rt: HostRuntime) -> Result<(), Fail> {
    for len in 0..21 {
        tell_prefix(&rt, rt.alloc(), len)?;
    }
    Ok(())
}

fn tell_prefix<R: Abort>(rt: &R, alloc: Global, len: usize) -> Result<(), Fail>
    requires { len ≤ 20 }
{
    assert_eq!(rt; answer(alloc, &THREE[..len])?, prefix_answer(len), "{len}");
    Ok(())
}

// What the three frames are opened as with another byte at one place.
fn changed_answer(place: usize, byte: u8) -> Found {
    match (place, byte) {
        // The version.
        (0, _) => Found::Fault(OpenFault::Damaged(0)),
        // A gate that isn't 1 ends the list.
        (1, _) => Found::Frames(0),
        (7, _) => Found::Frames(1),
        (14, _) => Found::Frames(2),
        // The last gate: an open one has no whole length behind it.
        (19, 1) => Found::Fault(OpenFault::Damaged(19)),
        // The first frame's length: the next gate is looked for elsewhere, and only at 14 an open one is found.
        (5, 8) => Found::Frames(2),
        (5, 14) => Found::Fault(OpenFault::Damaged(20)),
        (5, 0..=13) => Found::Frames(1),
        (2..=5, _) => Found::Fault(OpenFault::Damaged(1)),
        // The second frame's length.
        (11, 0..=7) => Found::Frames(2),
        (11, 8) => Found::Fault(OpenFault::Damaged(20)),
        (8..=11, _) => Found::Fault(OpenFault::Damaged(7)),
        // The third frame's length.
        (18, 1) => Found::Fault(OpenFault::Damaged(20)),
        (15..=18, _) => Found::Fault(OpenFault::Damaged(14)),
        // A content, or a last gate that isn't 1.
        _ => Found::Frames(3),
    }
}

#[test]
fn every_change_of_a_byte_of_three_frames(rt: HostRuntime) -> Result<(), Fail> {
    for place in 0..20 {
        for byte in 0..=255 {
            tell_change(&rt, rt.alloc(), place, byte)?;
        }
    }
    Ok(())
}

// Another byte at a place, unless it stands there.
fn tell_change<R: Abort>(rt: &R, alloc: Global, place: usize, byte: u8) -> Result<(), Fail>
    requires { place < 20 }
{
    let mut bytes = THREE;
    if bytes[place] != byte {
        bytes[place] = byte;
        assert_eq!(rt;
            answer(alloc, &bytes)?,
            changed_answer(place, byte),
            "{place} {byte}"
        );
    }
    Ok(())
}

// Whether an append fails, whether the journal is to be read again then, what it is read as, and whether it is to be
// read again after that.
type Told = (bool, bool, Found, bool);

fn append_and_reread(alloc: Global, journal: &mut Journal<MemoryDisk>) -> Result<Told, Fail> {
    let is_failed = append(alloc, journal, b"content")?.is_some();
    let is_loose = journal.is_loose();
    let found = read_again(alloc, journal)?;
    Ok((is_failed, is_loose, found, journal.is_loose()))
}

// Calls that fail, of which the first three are those of `open`, those of them that are done all the same, and what
// the next reread finds.
type Row = (&'static [u64], &'static [u64], Found);

// Where these calls fail, the append does, and the next reread finds this.
fn failing_row(rt: &impl Abort, alloc: Global, row: Row) -> Result<(), Fail> {
    let (fails, done, after) = row;
    let is_failed = !fails.is_empty();
    let is_unread = after == Found::Fault(OpenFault::Disk);
    let mut journal = opened(alloc, fails, done)?;
    let told = append_and_reread(alloc, &mut journal);
    drop(journal);
    same(rt, told?, (is_failed, is_failed, after, is_unread));
    Ok(())
}

const FAILING_APPENDS: [Row; 7] = [
    (&[], &[], Found::Frames(1)),
    (&[3], &[], Found::Frames(0)),
    (&[3], &[3], Found::Frames(0)),
    (&[4], &[], Found::Frames(0)),
    (&[5], &[], Found::Frames(0)),
    (&[5], &[5], Found::Frames(1)),
    (&[6], &[], Found::Frames(1)),
];

#[test]
fn each_device_call_of_an_append_fails(rt: HostRuntime) -> Result<(), Fail> {
    for row in &FAILING_APPENDS {
        failing_row(&rt, rt.alloc(), *row)?;
    }
    Ok(())
}

const FAILING_REREADS: [Row; 3] = [
    (&[6, 7], &[], Found::Fault(OpenFault::Disk)),
    (&[6, 8], &[], Found::Fault(OpenFault::Disk)),
    (&[6, 9], &[], Found::Fault(OpenFault::Disk)),
];

#[test]
fn each_device_call_of_a_reread_fails(rt: HostRuntime) -> Result<(), Fail> {
    for row in &FAILING_REREADS {
        failing_row(&rt, rt.alloc(), *row)?;
    }
    Ok(())
}

// A journal that was read again goes on with the frame that it found.
#[test]
fn an_append_after_a_reread(rt: HostRuntime) -> Result<(), Fail> {
    let mut journal = opened(rt.alloc(), &[5], &[5])?;
    match tell_going_on(&rt, rt.alloc(), &mut journal) {
        Ok(()) => {
            tell_bytes(&rt, journal, &TWO);
            Ok(())
        }
        Err(fail) => {
            drop(journal);
            Err(fail)
        }
    }
}

fn tell_going_on<R: Abort>(
    rt: &R,
    alloc: Global,
    journal: &mut Journal<MemoryDisk>,
) -> Result<(), Fail> {
    same(rt, append(alloc, journal, b"a")?, Some(AppendFault::Disk));
    same(rt, read_again(alloc, journal)?, Found::Frames(1));
    same(rt, append(alloc, journal, b"bc")?, None);
    Ok(())
}

// Two bytes of a journal's frames from a place on; `None` where they aren't there or can't be read.
fn two_from<D: Disk>(journal: &mut Journal<D>, place: u64) -> Option<[u8; 2]> {
    let last = journal.end().checked_sub(2)?;
    if last < place {
        return None;
    }
    let mut into = [0; 2];
    journal.fetch(place, &mut into).ok()?;
    Some(into)
}

// The places of two bytes in the three frames, and the bytes; the first fetch fails.
const FETCHES: [(u64, Option<[u8; 2]>); 5] = [
    (12, None),
    (12, Some(*b"bc")),
    (0, Some([1, 1])),
    (17, Some([0, 0])),
    (18, None),
];

// A fetch that fails leaves the journal as it was: the next one reads, and the next append is done.
#[test]
fn a_fetch_fails(rt: HostRuntime) -> Result<(), Fail> {
    let failures = failures(rt.alloc(), &[3], &[])?;
    let mut journal = opened_on(rt.alloc(), disk_of(rt.alloc(), &THREE, failures)?)?;
    for &(place, bytes) in &FETCHES {
        tell_fetch(&rt, &mut journal, place, bytes);
    }
    let appended = append(rt.alloc(), &mut journal, b"d");
    drop(journal);
    same(&rt, appended?, None);
    Ok(())
}

fn tell_fetch<R: Abort>(
    rt: &R,
    journal: &mut Journal<MemoryDisk>,
    place: u64,
    bytes: Option<[u8; 2]>,
) {
    same(rt, two_from(journal, place), bytes);
    same(rt, journal.is_loose(), false);
}

fn open_file(rt: &HostRuntime, folder: &str, path: &str) -> Result<Journal<FileDisk>, Fail> {
    match Journal::open(rt.alloc(), FileDisk::open(rt, folder, path)?) {
        Ok((journal, _)) => Ok(journal),
        Err(_) => Err(Fail::new("the file was refused")),
    }
}

// Opens the journal of a file, and appends a content. Whether that was done.
fn append_to_file(rt: &HostRuntime, folder: &str, path: &str, content: &[u8]) -> Result<bool, Fail>
    requires { length content.now ≤ 16777216 }
{
    let mut journal = open_file(rt, folder, path)?;
    let fault = append(rt.alloc(), &mut journal, content)?;
    drop(journal.close());
    Ok(fault.is_none())
}

#[test]
fn a_journal_on_a_file(rt: HostRuntime) -> Result<(), Fail> {
    let (folder, path) = ("bill_journal_file", "bill_journal_file/journal");
    make_folder(&rt, folder)?;
    same(&rt, append_to_file(&rt, folder, path, b"a")?, true);
    same(&rt, append_to_file(&rt, folder, path, b"bc")?, true);
    same(&rt, fs::read(&rt, path)?.as_slice(), TWO.as_slice());
    fs::remove_dir_all(&rt, folder)?;
    Ok(())
}

#[test]
fn a_file_that_was_cut_short(rt: HostRuntime) -> Result<(), Fail> {
    let (folder, path) = ("bill_journal_short", "bill_journal_short/journal");
    make_folder(&rt, folder)?;
    fs::write(&rt, path, &THREE[..13])?;
    tell_cut_short(&rt, rt.alloc(), FileDisk::open(&rt, folder, path)?)?;
    fs::remove_dir_all(&rt, folder)?;
    Ok(())
}

// The second frame of a disk runs past its end.
fn tell_cut_short<R: Abort>(rt: &R, alloc: Global, disk: FileDisk) -> Result<(), Fail> {
    match Journal::open(alloc, disk) {
        Err((disk, OpenFault::Damaged(7))) => same(rt, disk.faults(), 0),
        _ => return Err(Fail::new("the short file was not refused")),
    }
    Ok(())
}

#[test]
fn a_file_that_may_only_be_read(rt: HostRuntime) -> Result<(), Fail> {
    let (folder, path) = ("bill_journal_read", "bill_journal_read/journal");
    make_folder(&rt, folder)?;
    fs::write(&rt, path, &THREE)?;
    tell_only_read(&rt, rt.alloc(), FileDisk::new(File::open(&rt, path)?))?;
    fs::remove_dir_all(&rt, folder)?;
    Ok(())
}

// The journal of a file that is opened to be read has three frames, and gets none.
fn tell_only_read<R: Abort>(rt: &R, alloc: Global, disk: FileDisk) -> Result<(), Fail> {
    match Journal::open(alloc, disk) {
        Ok((mut journal, frames)) => {
            same(rt, frames.len(), 3);
            same(rt, two_from(&mut journal, 12), Some(*b"bc"));
            tell_refused(rt, alloc, &mut journal)?;
            same(rt, journal.close().faults(), 1);
        }
        Err(_) => return Err(Fail::new("the file was refused")),
    }
    Ok(())
}

fn tell_refused<R: Abort>(
    rt: &R,
    alloc: Global,
    journal: &mut Journal<FileDisk>,
) -> Result<(), Fail> {
    same(rt, append(alloc, journal, b"d")?, Some(AppendFault::Disk));
    same(rt, journal.is_loose(), true);
    Ok(())
}
