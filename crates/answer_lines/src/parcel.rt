//! What is sent between the platforms of a script.
ghost use Rattle.std.specs.Prelude.{◌≡◌};
ghost use Rattle.answer_lines.specs.Words.{content_bytes, content_text};

use ebl_base::{ByteList, Checksum, Copied, NoMemory, PlatformCode, Reference};
use std::alloc::Global;

/// What a platform of a script sent: a message of its own, or its reply to bytes that came.
#[derive(Debug, Drop)]
pub struct Parcel {
    /// The platform that sent it.
    pub from: PlatformCode,
    /// The platform that it is for; nobody for a reply to bytes from outside.
    pub to: Option<PlatformCode>,
    /// The bill of the exchange; 32 zero bytes for a reply to bytes from outside of which no bill was read.
    pub bill: Checksum,
    pub content: Content,
}

/// What a parcel brings.
#[derive(Debug, Drop)]
pub enum Content {
    /// The start of a transfer.
    Start {
        /// The body, a canonical text.
        body: ByteList,
    },
    /// An additional document of a transfer.
    Put {
        /// The transfer's reference.
        reference: Reference,
        /// The checksum under which the bytes are sent.
        checksum: Checksum,
        bytes: ByteList,
    },
    /// The end of an upload.
    Finish {
        /// The transfer's reference.
        reference: Reference,
    },
    /// The reply to a start: a Started as canonical JSON, or a signed answer.
    StartReply {
        bytes: ByteList,
    },
    /// The signed answer to a document or to the end of an upload.
    FinishReply {
        bytes: ByteList,
    },
}

impl Content {
    /// The word of the content in an answer line, as `START_REPLY`.
    pub fn as_str(&self) -> &'static str
        ensures { result.now ≡ content_text self.now }
    {
        match self {
            Content::Start { .. } => "START",
            Content::Put { .. } => "PUT",
            Content::Finish { .. } => "FINISH",
            Content::StartReply { .. } => "START_REPLY",
            Content::FinishReply { .. } => "FINISH_REPLY",
        }
    }

    /// The bytes that it brings; none for a FINISH.
    pub fn bytes(&self) -> &[u8]
        ensures { result.now ≡ content_bytes self.now }
    {
        match self {
            Content::Start { body } => body.as_slice(),
            Content::Put { bytes, .. } => bytes.as_slice(),
            Content::Finish { .. } => &[],
            Content::StartReply { bytes } => bytes.as_slice(),
            Content::FinishReply { bytes } => bytes.as_slice(),
        }
    }
}

impl Copied for Content {
    fn copy(&self, alloc: Global) -> Result<Self, NoMemory> {
        match self {
            Content::Start { body } => Ok(Content::Start {
                body: body.copy(alloc)?,
            }),
            Content::Put {
                reference,
                checksum,
                bytes,
            } => Ok(Content::Put {
                reference: *reference,
                checksum: *checksum,
                bytes: bytes.copy(alloc)?,
            }),
            Content::Finish { reference } => Ok(Content::Finish {
                reference: *reference,
            }),
            Content::StartReply { bytes } => Ok(Content::StartReply {
                bytes: bytes.copy(alloc)?,
            }),
            Content::FinishReply { bytes } => Ok(Content::FinishReply {
                bytes: bytes.copy(alloc)?,
            }),
        }
    }
}

impl Copied for Parcel {
    fn copy(&self, alloc: Global) -> Result<Self, NoMemory> {
        let content = self.content.copy(alloc)?;
        Ok(Parcel {
            from: self.from,
            to: self.to,
            bill: self.bill,
            content,
        })
    }
}
