//! What a platform replies.
ghost use Rattle.std.specs.Prelude.{◌≡◌, IfOk};
ghost use Rattle.platform_requests.specs.Words.{reply_text};

use crate::ignore_reason::IgnoreReason;
use crate::view::View;
use ebl_base::{ChecksumList, Copied, LimitKind, NoMemory, Party, PlaceTag, Reference, SignedText};
use pint_responses::Response;
use std::alloc::Global;
use title_fold::FoldRefusal;
use transport_document::DocumentFault;

/// What a platform replies to a request.
#[derive(Debug, Drop)]
pub enum Reply {
    /// It is done; the bill is now so.
    Done(View),
    /// The transfer is started, and these additional documents are missing.
    Started {
        /// Under which the documents are to be sent.
        reference: Reference,
        /// Their checksums, 1 to 16, in the manifest's order.
        missing: ChecksumList,
    },
    /// The additional document is there.
    Stored,
    /// A signed answer to another platform.
    Answer {
        response: Response,
        /// The response, signed by this platform.
        text: SignedText,
    },
    /// No transfer with this reference was started.
    UnknownReference,
    /// The party's platform is another one.
    NotOurs,
    /// The document isn't one of a bill.
    Document(DocumentFault),
    /// The party isn't the carrier of the document.
    NotCarrier,
    /// The document's bill is known here.
    KnownBill,
    /// The bill isn't held here: this is where it is.
    NotHere(PlaceTag),
    /// This party, to which possession or title would go, is none to which the roster lets it go.
    NoParty(Party),
    /// This rule of titles refuses the transaction.
    NotAllowed(FoldRefusal),
    /// The command would pass this limit.
    Limit(LimitKind),
    /// The other platform's reply changes nothing, for this reason.
    Ignored(IgnoreReason),
    /// No transfer of the bill is under way from here: this is where it is.
    NotParting(PlaceTag),
    /// The ring of keys failed to sign. Nothing of the request is kept.
    Sign,
    /// The journal has no room for the frame. Nothing of the request is kept.
    Full,
    /// The disk failed. The frame may be found there later.
    Disk,
    /// What the disk gave at this place is no frame that may be there.
    Damaged(u64),
    /// Memory ran out. Nothing of the request is kept.
    NoMemory,
}

impl Copied for Reply {
    fn copy(&self, alloc: Global) -> Result<Self, NoMemory> {
        match self {
            Reply::Done(view) => Ok(Reply::Done(*view)),
            Reply::Started { reference, missing } => Ok(Reply::Started {
                reference: *reference,
                missing: missing.copy(alloc)?,
            }),
            Reply::Stored => Ok(Reply::Stored),
            Reply::Answer { response, text } => answer_copy(alloc, response, text),
            Reply::UnknownReference => Ok(Reply::UnknownReference),
            Reply::NotOurs => Ok(Reply::NotOurs),
            Reply::Document(fault) => Ok(Reply::Document(*fault)),
            Reply::NotCarrier => Ok(Reply::NotCarrier),
            Reply::KnownBill => Ok(Reply::KnownBill),
            Reply::NotHere(place) => Ok(Reply::NotHere(*place)),
            Reply::NoParty(party) => Ok(Reply::NoParty(*party)),
            Reply::NotAllowed(rule) => Ok(Reply::NotAllowed(*rule)),
            Reply::Limit(which) => Ok(Reply::Limit(*which)),
            Reply::Ignored(reason) => Ok(Reply::Ignored(*reason)),
            Reply::NotParting(place) => Ok(Reply::NotParting(*place)),
            Reply::Sign => Ok(Reply::Sign),
            Reply::Full => Ok(Reply::Full),
            Reply::Disk => Ok(Reply::Disk),
            Reply::Damaged(place) => Ok(Reply::Damaged(*place)),
            Reply::NoMemory => Ok(Reply::NoMemory),
        }
    }
}

fn answer_copy(alloc: Global, response: &Response, text: &SignedText) -> Result<Reply, NoMemory>
    ensures { IfOk result (λ c. c ≡ Reply.Answer response.now text.now) }
{
    let response = response.copy(alloc)?;
    let text = text.copy(alloc)?;
    Ok(Reply::Answer { response, text })
}

impl Reply {
    /// The word of the reply in an answer line, as `DONE`; of a signed answer its code, as `RECE`.
    pub fn as_str(&self) -> &'static str
        ensures { result.now ≡ reply_text self.now }
    {
        match self {
            Reply::Done(_) => "DONE",
            Reply::Started { .. } => "STARTED",
            Reply::Stored => "STORED",
            Reply::Answer { response, .. } => response.code.as_str(),
            Reply::UnknownReference => "UNKNOWN_REFERENCE",
            Reply::NotOurs => "NOT_OURS",
            Reply::Document(_) => "DOCUMENT",
            Reply::NotCarrier => "NOT_CARRIER",
            Reply::KnownBill => "KNOWN_BILL",
            Reply::NotHere(_) => "NOT_HERE",
            Reply::NoParty(_) => "NO_PARTY",
            Reply::NotAllowed(_) => "NOT_ALLOWED",
            Reply::Limit(_) => "LIMIT",
            Reply::Ignored(_) => "IGNORED",
            Reply::NotParting(_) => "NOT_PARTING",
            Reply::Sign => "SIGN",
            Reply::Full => "FULL",
            Reply::Disk => "DISK",
            Reply::Damaged(_) => "DAMAGED",
            Reply::NoMemory => "NO_MEMORY",
        }
    }
}
