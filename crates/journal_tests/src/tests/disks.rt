//! What no contract says: listed failures with their bytes and without, and a real file.
use crate::tests::{disk_of, failures, make_folder, same};
use disk_model::{BoundedDisk, Disk, Failures, FileDisk, MemoryDisk};
use ebl_base::{Copied, NoMemory};
use std::alloc::Global;
use std::fs;
use std::fs::File;
use std::process::Abort;
use std::test::Fail;

const FOLDER: &str = "journal_tests_disk";

const PATH: &str = "journal_tests_disk/disk";

// What a disk answered to a call: a dot, or a mark for a failure.
fn mark<T: Drop, E: Drop>(answer: Result<T, E>) -> u8 {
    match answer {
        Ok(_) => b'.',
        Err(_) => b'!',
    }
}

// What a disk answers to each call, without what its contract says, which a caller would carry on.
fn len_mark(disk: &mut MemoryDisk) -> u8 {
    mark(disk.len())
}

fn write_mark(disk: &mut MemoryDisk, place: usize, bytes: &[u8]) -> u8 {
    if disk.bytes().len() < place {
        return b'?';
    }
    mark(disk.write_at(place as u64, bytes))
}

fn sync_mark(disk: &mut MemoryDisk) -> u8 {
    mark(disk.sync())
}

fn read_mark(disk: &mut MemoryDisk) -> u8 {
    if disk.bytes().len() < 4 {
        return b'?';
    }
    mark(disk.read(1, &mut [0; 3]))
}

// What a disk of four bytes answers to its length, two writes, a sync and a read.
fn answers(disk: &mut MemoryDisk) -> [u8; 5] {
    [
        len_mark(disk),
        write_mark(disk, 1, b"XY"),
        write_mark(disk, 3, b"Zz"),
        sync_mark(disk),
        read_mark(disk),
    ]
}

// A copy of a disk of four bytes, of which the calls of a copied list fail.
fn copied(alloc: Global, failures: &Failures) -> Result<MemoryDisk, NoMemory> {
    let disk = disk_of(alloc, b"abcd", failures.copy(alloc)?)?;
    let copy = disk.copy(alloc);
    drop(disk);
    copy
}

fn tell_answers<R: Abort>(rt: &R, disk: &mut MemoryDisk, told: &[u8; 5], bytes: &[u8]) {
    same(rt, answers(disk), *told);
    same(rt, disk.bytes(), bytes);
}

fn memory_row(
    rt: &impl Abort,
    alloc: Global,
    fails: &[u64],
    done: &[u64],
    told: &[u8; 5],
    bytes: &[u8],
) -> Result<(), Fail> {
    let failures = failures(alloc, fails, done)?;
    let copy = copied(alloc, &failures);
    drop(failures);
    let mut disk = copy?;
    tell_answers(rt, &mut disk, told, bytes);
    drop(disk);
    Ok(())
}

// The calls that fail, the writes among them that are done, what the disk answers, and its bytes then.
const ANSWERS: [(&[u64], &[u64], &[u8; 5], &[u8]); 4] = [
    (&[], &[1], b".....", b"aXYZz"),
    (&[1], &[], b".!...", b"abcZz"),
    (&[2, 1], &[1], b".!!..", b"aXYd"),
    (&[4, 3, 0], &[4, 0], b"!..!!", b"aXYZz"),
];

#[test]
fn a_memory_disk_fails_at_the_listed_calls(rt: HostRuntime) -> Result<(), Fail> {
    for &(fails, done, told, bytes) in &ANSWERS {
        memory_row(&rt, rt.alloc(), fails, done, told, bytes)?;
    }
    Ok(())
}

#[test]
fn a_count_of_failed_calls(rt: HostRuntime) -> Result<(), Fail> {
    let failures = failures(rt.alloc(), &[0, 2], &[])?;
    let mut disk = disk_of(rt.alloc(), b"abcd", failures)?;
    tell_count(&rt, &mut disk);
    drop(disk);
    Ok(())
}

// Of three calls the first and the last fail.
fn tell_count<R: Abort>(rt: &R, disk: &mut MemoryDisk) {
    same(rt, len_mark(disk), b'!');
    same(rt, disk.len(), Ok(4));
    same(rt, sync_mark(disk), b'!');
    same(rt, disk.faults(), 2);
}

// What a disk that is bounded in its bytes and its calls answers to three writes and two syncs.
fn bounded_marks(disk: &mut BoundedDisk) -> [u8; 5] {
    let writes = [b"abc".as_slice(), b"XY", b"Q"];
    let mut marks = [b'.'; 5];
    for (at, bytes) in writes.iter().enumerate() {
        marks[at] = mark(disk.write_at(0, bytes));
    }
    for at in 3..5 {
        marks[at] = mark(disk.sync());
    }
    marks
}

// A copy of a disk with room for five bytes and three calls.
fn bounded(alloc: Global) -> Result<BoundedDisk, NoMemory> {
    let disk = BoundedDisk::new(alloc, 5, 3)?;
    let copy = disk.copy(alloc);
    drop(disk);
    copy
}

#[test]
fn a_bounded_disk_fails_past_its_room_alone(rt: HostRuntime) -> Result<(), Fail> {
    let mut disk = bounded(rt.alloc())?;
    tell_bounded(&rt, &mut disk);
    drop(disk);
    Ok(())
}

fn tell_bounded<R: Abort>(rt: &R, disk: &mut BoundedDisk) {
    same(rt, bounded_marks(disk), *b"..!.!");
    same(rt, disk.len(), Ok(3));
    same(rt, disk.bytes(), b"XYc");
    same(rt, disk.faults(), 2);
}

// A blank file gets six bytes by two writes that overlap.
fn is_written(disk: &mut FileDisk) -> bool {
    disk.write_at(0, b"abcd").is_ok() && disk.write_at(3, b"XYZ").is_ok() && disk.sync().is_ok()
}

// Four bytes from a place on.
fn four_from(disk: &mut FileDisk, place: u64) -> Option<[u8; 4]> {
    let mut into = [0; 4];
    disk.read(place, &mut into).ok()?;
    Some(into)
}

#[test]
fn a_file_is_a_disk(rt: HostRuntime) -> Result<(), Fail> {
    make_folder(&rt, FOLDER)?;
    tell_blank(&rt, &mut FileDisk::open(&rt, FOLDER, PATH)?);
    tell_only_read(&rt, &mut FileDisk::new(File::open(&rt, PATH)?));
    fs::remove_dir_all(&rt, FOLDER)?;
    Ok(())
}

// A blank file is written, and read up to its end and past it.
fn tell_blank<R: Abort>(rt: &R, disk: &mut FileDisk) {
    same(rt, disk.len(), Ok(0));
    assert!(rt; is_written(disk));
    tell_four(rt, disk, 2, Some(*b"cXYZ"), 0);
    tell_four(rt, disk, 3, None, 1);
}

// Which four bytes stand from a place on, and how many calls failed then.
fn tell_four<R: Abort>(
    rt: &R,
    disk: &mut FileDisk,
    place: u64,
    four: Option<[u8; 4]>,
    faults: u64,
) {
    same(rt, four_from(disk, place), four);
    same(rt, disk.faults(), faults);
}

// What is opened to be read refuses a write.
fn tell_only_read<R: Abort>(rt: &R, disk: &mut FileDisk) {
    same(rt, disk.len(), Ok(6));
    same(rt, mark(disk.write_at(0, b"Q")), b'!');
    same(rt, disk.faults(), 1);
}
