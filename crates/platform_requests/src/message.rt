//! What a platform sends to another one.

use ebl_base::{ByteList, Checksum, Copied, Items, NoMemory, PlatformCode, Reference};
use std::alloc::Global;

/// What a platform sends to another one for the transfer of a bill.
#[derive(Debug, Drop)]
pub enum Message {
    /// The start of the transfer.
    Start {
        to: PlatformCode,
        bill: Checksum,
        /// The body, a canonical text: the document, the manifest and the chain.
        body: ByteList,
    },
    /// An additional document.
    Put {
        to: PlatformCode,
        bill: Checksum,
        /// The reference that the start was answered with.
        reference: Reference,
        /// The checksum under which the manifest lists the document.
        checksum: Checksum,
        bytes: ByteList,
    },
    /// The end of the transfer, after its additional documents.
    Finish {
        to: PlatformCode,
        bill: Checksum,
        /// The reference that the start was answered with.
        reference: Reference,
    },
}

/// Messages in the order in which they are to be sent.
pub type MessageList = Items<Message>;

impl Copied for Message {
    fn copy(&self, alloc: Global) -> Result<Self, NoMemory> {
        match self {
            Message::Start { to, bill, body } => Ok(Message::Start {
                to: *to,
                bill: *bill,
                body: body.copy(alloc)?,
            }),
            Message::Put {
                to,
                bill,
                reference,
                checksum,
                bytes,
            } => Ok(Message::Put {
                to: *to,
                bill: *bill,
                reference: *reference,
                checksum: *checksum,
                bytes: bytes.copy(alloc)?,
            }),
            Message::Finish {
                to,
                bill,
                reference,
            } => Ok(Message::Finish {
                to: *to,
                bill: *bill,
                reference: *reference,
            }),
        }
    }
}
