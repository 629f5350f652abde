//! What a platform is asked.
ghost use Rattle.std.specs.Prelude.{◌≡◌, IfOk};
ghost use Rattle.platform_requests.specs.Request.{request_view};

use ebl_base::{ByteList, Checksum, Copied, NoMemory, Party, Reference};
use holder_commands::Command;
use std::alloc::Global;

/// What a platform is asked: a holder's command, a message of another platform, or a question of its own operator.
#[derive(Drop)]
pub enum Request {
    /// A holder's command.
    Command {
        /// The party that asks. Whether it is who it says is asked before, not here.
        party: Party,
        command: Command,
    },
    /// Another platform starts a transfer.
    Start {
        /// The body as it came, any bytes.
        body: ByteList,
    },
    /// Another platform sends an additional document of a transfer.
    Put {
        /// The reference that the start was answered with.
        reference: Reference,
        /// The checksum under which the manifest lists the document.
        checksum: Checksum,
        /// The document's bytes as they came.
        bytes: ByteList,
    },
    /// Another platform finishes a transfer, after its additional documents.
    Finish {
        /// The reference that the start was answered with.
        reference: Reference,
    },
    /// Another platform's reply to the start that this one sent for the bill.
    StartReply {
        bill: Checksum,
        /// The reply as it came, any bytes.
        bytes: ByteList,
    },
    /// Another platform's reply to a document or the finish that this one sent for the bill.
    FinishReply {
        bill: Checksum,
        /// The reply as it came, any bytes.
        bytes: ByteList,
    },
    /// Send the start of the bill's transfer again.
    Resend {
        bill: Checksum,
    },
    /// Tell how the bill is here.
    Ask {
        bill: Checksum,
    },
}

impl Request {
    /// A request equal to this one, with copies of the texts and bytes in it.
    pub fn copy(&self, alloc: Global) -> Result<Request, NoMemory>
        ensures { IfOk result (λ c. request_view c ≡ request_view self.now) }
    {
        match self {
            Request::Command { party, command } => Ok(Request::Command {
                party: *party,
                command: command.copy(alloc)?,
            }),
            Request::Start { body } => Ok(Request::Start {
                body: body.copy(alloc)?,
            }),
            Request::Put {
                reference,
                checksum,
                bytes,
            } => Ok(Request::Put {
                reference: *reference,
                checksum: *checksum,
                bytes: bytes.copy(alloc)?,
            }),
            Request::Finish { reference } => Ok(Request::Finish {
                reference: *reference,
            }),
            Request::StartReply { bill, bytes } => Ok(Request::StartReply {
                bill: *bill,
                bytes: bytes.copy(alloc)?,
            }),
            Request::FinishReply { bill, bytes } => Ok(Request::FinishReply {
                bill: *bill,
                bytes: bytes.copy(alloc)?,
            }),
            Request::Resend { bill } => Ok(Request::Resend { bill: *bill }),
            Request::Ask { bill } => Ok(Request::Ask { bill: *bill }),
        }
    }
}
