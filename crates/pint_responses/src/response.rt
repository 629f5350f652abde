//! The answer of a platform.
use ebl_base::{Checksum, ChecksumList, Code, Copied, Evidence, NoMemory, Reason};
use std::alloc::Global;

/// How a platform answers an envelope or a document that another platform sends.
#[derive(Debug, Drop)]
pub struct Response {
    pub code: Code,
    /// The name of the bill, where the transport document was read.
    pub bill: Option<Checksum>,
    /// The name of the last text of the chain, where there is one.
    pub last: Option<Checksum>,
    /// The answer is final: the platform will give no other one to this envelope.
    pub standing: bool,
    /// Why the envelope or the document isn't received.
    pub reason: Option<Reason>,
    /// The additional documents that are missing, by their checksums.
    pub missing: ChecksumList,
    /// The entries at which the chain that was shown parts from the one that is known here.
    pub evidence: Evidence,
}

impl Copied for Response {
    fn copy(&self, alloc: Global) -> Result<Self, NoMemory> {
        let missing = self.missing.copy(alloc)?;
        let evidence = self.evidence.copy(alloc)?;
        Ok(Response {
            code: self.code,
            bill: self.bill,
            last: self.last,
            standing: self.standing,
            reason: self.reason,
            missing,
            evidence,
        })
    }
}
