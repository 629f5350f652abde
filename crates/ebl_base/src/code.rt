//! The codes of answers to envelopes.
ghost use Rattle.std.specs.Prelude.{◌≡◌};
ghost use Rattle.ebl_base.specs.Code.{response_code_of, response_code_text};

/// How a platform answers an envelope that another one sends (DCSA PINT 3.0).
#[derive(Clone, Copy, Debug, PartialEq, Eq)]
pub enum Code {
    /// RECE: received, the bill is here now.
    Received,
    /// DUPE: a duplicate, the bill was received before.
    Duplicate,
    /// BSIG: a signature is bad, or another platform's.
    BadSignature,
    /// BENV: the envelope is bad.
    BadEnvelope,
    /// INCD: an additional document isn't listed, or isn't the one that is listed.
    InconsistentDocument,
    /// MDOC: additional documents are missing.
    MissingDocuments,
    /// DISE: the envelope is disputed, since its chain differs from the one that is known here.
    DisputedEnvelope,
}

// Every code, once.
const CODES: [Code; 7] = [
    Code::Received,
    Code::Duplicate,
    Code::BadSignature,
    Code::BadEnvelope,
    Code::InconsistentDocument,
    Code::MissingDocuments,
    Code::DisputedEnvelope,
];

impl Code {
    /// The code with this text of four letters; `None` if and only if the text is none of the seven.
    pub fn from_text(text: &[u8]) -> Option<Code>
        ensures { result ≡ response_code_of text.now }
    {
        CODES
            .iter()
            .copied()
            .find(|code| code.as_str().as_bytes() == text)
    }

    /// The four letters of the code.
    pub fn as_str(self) -> &'static str
        ensures { result.now ≡ response_code_text self }
    {
        match self {
            Code::Received => "RECE",
            Code::Duplicate => "DUPE",
            Code::BadSignature => "BSIG",
            Code::BadEnvelope => "BENV",
            Code::InconsistentDocument => "INCD",
            Code::MissingDocuments => "MDOC",
            Code::DisputedEnvelope => "DISE",
        }
    }
}
