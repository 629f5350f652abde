//! What happened to the bytes of a disk in memory.

#[derive(Clone, Copy, Debug)]
pub(crate) enum Mark {
    // So many bytes were written from this place on.
    Write(usize, usize),
    // All that was written is on the disk.
    Sync,
}
