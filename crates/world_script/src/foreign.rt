//! Bytes that no platform of a script sent.
ghost use Rattle.std.specs.Prelude.{◌≡◌, IfOk};
ghost use Rattle.world_script.specs.Event.{foreign_view};

use crate::deed::BillName;
use ebl_base::{ByteList, CharList, Checksum, Copied, NoMemory, Reference};
use std::alloc::Global;

/// Bytes from outside, as a script has them come to a platform.
#[derive(Drop)]
pub enum Foreign {
    /// The start of a transfer.
    Start {
        /// The text of its body.
        body: CharList,
    },
    /// A document of a transfer.
    Put {
        /// The transfer's reference.
        reference: Reference,
        /// The checksum under which the bytes come.
        checksum: Checksum,
        /// The bytes, of any length.
        bytes: ByteList,
    },
    /// The end of an upload.
    Finish {
        /// The transfer's reference.
        reference: Reference,
    },
    /// A reply to the start of a transfer.
    StartReply {
        /// The transfer's bill.
        bill: BillName,
        /// The reply's text.
        text: CharList,
    },
    /// A reply to a document or to the end of an upload.
    FinishReply {
        /// The transfer's bill.
        bill: BillName,
        /// The reply's text.
        text: CharList,
    },
}

impl Foreign {
    /// Bytes equal to these, as copies.
    pub fn copy(&self, alloc: Global) -> Result<Foreign, NoMemory>
        ensures { IfOk result (λ foreign. foreign_view foreign ≡ foreign_view self.now) }
    {
        match self {
            Foreign::Start { body } => Ok(Foreign::Start {
                body: body.copy(alloc)?,
            }),
            Foreign::Put {
                reference,
                checksum,
                bytes,
            } => Ok(Foreign::Put {
                reference: *reference,
                checksum: *checksum,
                bytes: bytes.copy(alloc)?,
            }),
            Foreign::Finish { reference } => Ok(Foreign::Finish {
                reference: *reference,
            }),
            Foreign::StartReply { bill, text } => Ok(Foreign::StartReply {
                bill: *bill,
                text: text.copy(alloc)?,
            }),
            Foreign::FinishReply { bill, text } => Ok(Foreign::FinishReply {
                bill: *bill,
                text: text.copy(alloc)?,
            }),
        }
    }
}
