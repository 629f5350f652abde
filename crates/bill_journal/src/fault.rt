//! Why a call of a journal failed.
ghost use Rattle.std.specs.Prelude.{◌≡◌};
ghost use Rattle.bill_journal.specs.declared.fault.OpenFault.TheVariants.{NoMemory as OutOfMemory, Disk};

use ebl_base::{Failed, NoMemory};
use std::alloc::AllocError;

/// Why a journal could not be opened or read again.
#[derive(Clone, Copy, Debug, PartialEq, Eq)]
pub enum OpenFault {
    /// The disk failed: its count of faults rose.
    Disk,
    /// The frame at this place runs past the end; or the disk ends there, where a gate should stand; or, at 0, the
    /// version isn't 1.
    Damaged(u64),
    /// Memory ran out.
    NoMemory,
}

/// Why a frame was not appended.
#[derive(Clone, Copy, Debug, PartialEq, Eq)]
pub enum AppendFault {
    /// The journal would be longer than its room.
    Full,
    /// The disk failed: its count of faults rose.
    Disk,
}

impl From<Failed> for OpenFault {
    ghost from_gives = { λ _ e. e ≡ Disk };

    fn from(_: Failed) -> Self {
        OpenFault::Disk
    }
}

impl From<NoMemory> for OpenFault {
    ghost from_gives = { λ _ e. e ≡ OutOfMemory };

    fn from(_: NoMemory) -> Self {
        OpenFault::NoMemory
    }
}

impl From<AllocError> for OpenFault {
    ghost from_gives = { λ _ e. e ≡ OutOfMemory };

    fn from(_: AllocError) -> Self {
        OpenFault::NoMemory
    }
}
