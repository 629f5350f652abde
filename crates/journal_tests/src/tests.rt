//! Disks, and journals of frames on them.
mod disks;
mod journals;

use disk_model::{Failures, MemoryDisk};
use ebl_base::{ByteList, CallList, NoMemory};
use std::alloc::Global;
use std::fmt::Debug;
use std::fs;
use std::process::Abort;
use std::test::Fail;

// What was seen is what was expected.
fn same<R: Abort, T: Copy + Debug + PartialEq>(rt: &R, seen: T, expected: T) {
    assert_eq!(rt; seen, expected);
}

// These calls fail, and the writes among them that `done` has are done all the same.
fn failures(alloc: Global, fails: &[u64], done: &[u64]) -> Result<Failures, NoMemory> {
    Ok(Failures {
        calls: CallList::from_slice(alloc, fails)?,
        written: CallList::from_slice(alloc, done)?,
    })
}

fn disk_of(alloc: Global, bytes: &[u8], failures: Failures) -> Result<MemoryDisk, NoMemory> {
    let Ok(bytes) = ByteList::from_slice(alloc, bytes) else {
        drop(failures);
        return Err(NoMemory);
    };
    MemoryDisk::new(alloc, bytes, failures)
}

// A folder with nothing in it, whatever an earlier run left there.
fn make_folder(rt: &HostRuntime, folder: &str) -> Result<(), Fail> {
    let _ = fs::remove_dir_all(rt, folder);
    fs::create_dir(rt, folder)?;
    Ok(())
}
