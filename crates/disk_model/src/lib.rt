//! Disks: what a read gives, what a crash may leave, and a count of faults; in memory and over a file.
#![tactic(auto)]

mod bounded_disk;
mod disk;
mod file_disk;
mod log;
mod mark;
mod memory_disk;

pub use bounded_disk::BoundedDisk;
pub use disk::Disk;
pub use file_disk::FileDisk;
pub use memory_disk::{Failures, MemoryDisk};
