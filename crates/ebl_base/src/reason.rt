//! The reasons of answers to envelopes.
ghost use Rattle.std.specs.Prelude.{◌≡◌};
ghost use Rattle.ebl_base.specs.Reason.{code_for, reason_at, reason_index, reason_of, reason_text};

use crate::code::Code;

/// Why an envelope or a document isn't received. An index is that of an entry in the chain, from 0.
#[derive(Clone, Copy, Debug, PartialEq, Eq)]
pub enum Reason {
    /// The body is malformed.
    Body,
    /// The transport document is refused.
    Document,
    /// The chain has no entry, or more than 64.
    Length,
    /// The text of this entry isn't a signed text of a platform.
    Signature(usize),
    /// The payload of this text isn't an entry.
    Entry(usize),
    /// This entry is of another platform than the one that signed it.
    Signer(usize),
    /// This entry doesn't name the one before it.
    Link(usize),
    /// This entry names another bill.
    Bill(usize),
    /// The first transaction isn't by the carrier of the document.
    Carrier,
    /// This entry isn't of the platform that has possession.
    Platform(usize),
    /// A transaction of this entry is refused.
    Fold(usize),
    /// In this entry another transaction than the last moves possession, or the last doesn't.
    Move(usize),
    /// The manifest isn't signed by the platform of the last entry.
    ManifestSignature,
    /// The manifest is malformed.
    ManifestForm,
    /// The manifest names another bill or another last entry.
    ManifestNames,
    /// The chain moves possession to another platform.
    Destination,
    /// The party that is to have possession isn't known here.
    Party,
    /// The chain differs from the one that is known here.
    Parts,
    /// No such document is listed in the manifest.
    NotListed,
    /// The bytes aren't those of the document that is listed.
    Bytes,
}

// Every reason, at the first entry where it is of one.
const REASONS: [Reason; 20] = [
    Reason::Body,
    Reason::Document,
    Reason::Length,
    Reason::Signature(0),
    Reason::Entry(0),
    Reason::Signer(0),
    Reason::Link(0),
    Reason::Bill(0),
    Reason::Carrier,
    Reason::Platform(0),
    Reason::Fold(0),
    Reason::Move(0),
    Reason::ManifestSignature,
    Reason::ManifestForm,
    Reason::ManifestNames,
    Reason::Destination,
    Reason::Party,
    Reason::Parts,
    Reason::NotListed,
    Reason::Bytes,
];

impl Reason {
    /// The reason with this text, at the first entry where it has an index; `None` if and only if the text is none
    /// of the twenty.
    pub fn from_text(text: &[u8]) -> Option<Reason>
        ensures { result ≡ reason_of text.now }
    {
        REASONS
            .iter()
            .copied()
            .find(|reason| reason.as_str().as_bytes() == text)
    }

    /// The text of the reason, without its index.
    pub fn as_str(self) -> &'static str
        ensures { result.now ≡ reason_text self }
    {
        match self {
            Reason::Body => "BODY",
            Reason::Document => "DOCUMENT",
            Reason::Length => "LENGTH",
            Reason::Signature(_) => "SIGNATURE",
            Reason::Entry(_) => "ENTRY",
            Reason::Signer(_) => "SIGNER",
            Reason::Link(_) => "LINK",
            Reason::Bill(_) => "BILL",
            Reason::Carrier => "CARRIER",
            Reason::Platform(_) => "PLATFORM",
            Reason::Fold(_) => "FOLD",
            Reason::Move(_) => "MOVE",
            Reason::ManifestSignature => "MANIFEST_SIGNATURE",
            Reason::ManifestForm => "MANIFEST_FORM",
            Reason::ManifestNames => "MANIFEST_NAMES",
            Reason::Destination => "DESTINATION",
            Reason::Party => "PARTY",
            Reason::Parts => "PARTS",
            Reason::NotListed => "NOT_LISTED",
            Reason::Bytes => "BYTES",
        }
    }

    /// The index of the entry in the chain, from 0; `None` if the reason is of no entry.
    pub fn index(self) -> Option<usize>
        ensures { result ≡ reason_index self }
    {
        match self {
            Reason::Signature(index)
            | Reason::Entry(index)
            | Reason::Signer(index)
            | Reason::Link(index)
            | Reason::Bill(index)
            | Reason::Platform(index)
            | Reason::Fold(index)
            | Reason::Move(index) => Some(index),
            _ => None,
        }
    }

    /// The same reason of the entry with this index; a reason of no entry stays as it is.
    pub fn at(self, index: usize) -> Reason
        ensures { result ≡ reason_at index self }
    {
        match self {
            Reason::Signature(_) => Reason::Signature(index),
            Reason::Entry(_) => Reason::Entry(index),
            Reason::Signer(_) => Reason::Signer(index),
            Reason::Link(_) => Reason::Link(index),
            Reason::Bill(_) => Reason::Bill(index),
            Reason::Platform(_) => Reason::Platform(index),
            Reason::Fold(_) => Reason::Fold(index),
            Reason::Move(_) => Reason::Move(index),
            other => other,
        }
    }

    /// The code with which the reason comes.
    pub fn code(self) -> Code
        ensures { result ≡ code_for self }
    {
        match self {
            Reason::Signature(_) | Reason::Signer(_) | Reason::ManifestSignature =>
                Code::BadSignature,
            Reason::Body
            | Reason::Document
            | Reason::Length
            | Reason::Entry(_)
            | Reason::Link(_)
            | Reason::Bill(_)
            | Reason::Carrier
            | Reason::Platform(_)
            | Reason::Fold(_)
            | Reason::Move(_)
            | Reason::ManifestForm
            | Reason::ManifestNames
            | Reason::Destination
            | Reason::Party => Code::BadEnvelope,
            Reason::Parts => Code::DisputedEnvelope,
            Reason::NotListed | Reason::Bytes => Code::InconsistentDocument,
        }
    }
}
