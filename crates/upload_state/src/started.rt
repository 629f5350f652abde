//! The answer that an upload has started.

use ebl_base::{ChecksumList, Copied, NoMemory, Reference};
use std::alloc::Global;

/// An upload has started: under which reference it goes on, and which documents are wanted.
#[derive(Debug, Drop)]
pub struct Started {
    /// The reference of the upload.
    pub reference: Reference,
    /// The checksums of the wanted documents, 1 to 16 in the order of the manifest.
    pub missing: ChecksumList,
}

impl Copied for Started {
    fn copy(&self, alloc: Global) -> Result<Self, NoMemory> {
        let missing = self.missing.copy(alloc)?;
        Ok(Started {
            reference: self.reference,
            missing,
        })
    }
}

/// Why a text is not taken as the answer that an upload has started.
#[derive(Clone, Copy, Debug, PartialEq, Eq)]
pub enum StartedFault {
    /// It is no JSON that `canonical_json` reads, or no object with `reference`, the
    /// text of a UUID, and `missing`, a list of 1 to 16 checksums.
    Form,
    /// Memory ran out.
    NoMemory,
}

impl From<NoMemory> for StartedFault {
    ghost use Rattle.std.specs.Prelude.{◌≡◌};
    ghost use Rattle.upload_state.specs.declared.started.StartedFault.TheVariants as faults;

    ghost from_gives = { λ _ e. e ≡ faults.NoMemory };

    fn from(_: NoMemory) -> StartedFault {
        StartedFault::NoMemory
    }
}
