//! What a platform makes of a chain that is shown to it.
use ebl_base::{ChecksumList, Code, Copied, Evidence, NoMemory, Reason};
use std::alloc::Global;

/// What a platform makes of a chain that is shown to it: the first that applies.
#[derive(Debug, Drop)]
pub enum Judgement {
    /// The chain moves possession to another platform.
    Elsewhere,
    /// The chain's last entry was taken before.
    Duplicate,
    /// The last entry was declined for good before.
    Declined {
        code: Code,
        reason: Reason,
        evidence: Evidence,
    },
    /// The chain parts from the one that is known here, or doesn't go on beyond it.
    Parts(Evidence),
    /// The roster doesn't know the party that is to have possession.
    Unknown,
    /// These additional documents aren't there yet, in the order of the manifest.
    Missing(ChecksumList),
    /// The bill is received.
    Accept,
}

impl Copied for Judgement {
    fn copy(&self, alloc: Global) -> Result<Self, NoMemory> {
        match self {
            Judgement::Elsewhere => Ok(Judgement::Elsewhere),
            Judgement::Duplicate => Ok(Judgement::Duplicate),
            Judgement::Declined {
                code,
                reason,
                evidence,
            } => Ok(Judgement::Declined {
                code: *code,
                reason: *reason,
                evidence: evidence.copy(alloc)?,
            }),
            Judgement::Parts(evidence) => Ok(Judgement::Parts(evidence.copy(alloc)?)),
            Judgement::Unknown => Ok(Judgement::Unknown),
            Judgement::Missing(missing) => Ok(Judgement::Missing(missing.copy(alloc)?)),
            Judgement::Accept => Ok(Judgement::Accept),
        }
    }
}
