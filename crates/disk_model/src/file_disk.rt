//! A file as a disk.
ghost use Rattle.std.specs.Prelude.{◌≡◌, [], false, IfOk};
ghost use Rattle.ebl_base.specs.Faults.{HasCause};

use crate::disk::Disk;
use ebl_base::{Failed, count_fault};
use std::fs::{File, OpenOptions};
use std::io;
use std::marker::Model;
use std::os::unix::fs::FileExt;

/// A file as a disk. Its bytes aren't known: no contract says what the system keeps of a file.
///
/// Each error of the system counts as a fault. A call that a signal interrupts is made again, and a read or a write
/// that moved only a part goes on behind that part. A sync waits until the system says that the bytes are on the
/// device (`fdatasync`).
#[derive(Drop)]
pub struct FileDisk {
    file: File,
    faults: u64,
}

impl Model for FileDisk {
    ghost use Rattle.std.specs.Prelude.{ℕ};

    ghost Value = { ℕ };

    ghost view = { λ s. s.faults };
}

impl FileDisk {
    /// An open file as a disk.
    pub fn new(file: File) -> Self
        ensures { result ≡ 0 }
    {
        FileDisk { file, faults: 0 }
    }

    /// The file at a path of a folder as a disk. A file that isn't there is made, blank, and the folder synced, so
    /// that a crash doesn't lose its name.
    ///
    /// Nobody else may write the file while the disk is used: nothing here locks it.
    pub fn open(rt: &HostRuntime, folder: &str, path: &str) -> io::Result<FileDisk>
        ensures { IfOk result (λ disk. disk ≡ 0) }
    {
        let file = OpenOptions::new()
            .read(true)
            .write(true)
            .create(true)
            .open(rt, path)?;
        File::open(rt, folder)?.sync_all()?;
        Ok(FileDisk::new(file))
    }

    /// How many calls failed.
    pub fn faults(&self) -> u64
        ensures { result ≡ self.now }
    {
        self.faults
    }

    // What the system answered to a call. An error is counted.
    fn counted<T: Drop>(&mut self, answer: io::Result<T>) -> Result<T, Failed>
        ensures cause { HasCause self.old self.new result }
    {
        match answer {
            Ok(value) => Ok(value),
            Err(_) => Err(count_fault(&mut self.faults)),
        }
    }
}

impl Disk for FileDisk {
    ghost tells = { λ _. false };

    ghost seen = { λ _. [] };

    ghost may_leave = { λ _ _. Unit {0} };

    ghost moment = { λ _. 0 };

    ghost left_since = { λ _ _ _. Unit {0} };

    ghost faults = { λ s. s };

    fn len(&mut self) -> Result<u64, Failed> {
        let answer = self.file.metadata();
        Ok(self.counted(answer)?.len())
    }

    fn read(&mut self, place: u64, into: &mut [u8]) -> Result<(), Failed> {
        let answer = self.file.read_exact_at(into, place);
        self.counted(answer)
    }

    fn write_at(&mut self, place: u64, bytes: &[u8]) -> Result<(), Failed> {
        let answer = self.file.write_all_at(bytes, place);
        self.counted(answer)
    }

    fn sync(&mut self) -> Result<(), Failed> {
        let answer = self.file.sync_data();
        self.counted(answer)
    }

    ghost counts_now = { λ s t c told le left. tt };

    ghost only_now = { λ s c told left. tt };
}
