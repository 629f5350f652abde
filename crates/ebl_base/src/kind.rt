//! The kinds of transactions.
ghost use Rattle.std.specs.Prelude.{◌≡◌};
ghost use Rattle.ebl_base.specs.Kind.{kind_of, kind_text};

/// What a transaction does to the title of a bill.
#[derive(Clone, Copy, Debug, PartialEq, Eq)]
pub enum Kind {
    /// The carrier signs the transport document: the bill begins.
    Sign,
    /// The carrier issues the bill to its first possessor and title holder.
    Issue,
    /// The possessor who is title holder names another title holder.
    Endorse,
    /// The possessor hands possession on.
    Transfer,
    /// The possessor who is title holder asks for the goods.
    SurrenderForDelivery,
    /// The possessor who is title holder asks for a change of the document.
    SurrenderForAmendment,
    /// The carrier accepts a surrender: the bill ends.
    SurrenderAccepted,
    /// The carrier refuses a surrender: the asker has the bill again.
    SurrenderRefused,
}

// Every kind, once.
const KINDS: [Kind; 8] = [
    Kind::Sign,
    Kind::Issue,
    Kind::Endorse,
    Kind::Transfer,
    Kind::SurrenderForDelivery,
    Kind::SurrenderForAmendment,
    Kind::SurrenderAccepted,
    Kind::SurrenderRefused,
];

impl Kind {
    /// The kind with this text, as `SIGN`; `None` if and only if the text is that of no kind.
    pub fn from_text(text: &[u8]) -> Option<Kind>
        ensures { result ≡ kind_of text.now }
    {
        KINDS
            .iter()
            .copied()
            .find(|kind| kind.as_str().as_bytes() == text)
    }

    /// The text of the kind.
    pub fn as_str(self) -> &'static str
        ensures { result.now ≡ kind_text self }
    {
        match self {
            Kind::Sign => "SIGN",
            Kind::Issue => "ISSUE",
            Kind::Endorse => "ENDORSE",
            Kind::Transfer => "TRANSFER",
            Kind::SurrenderForDelivery => "SURRENDER_FOR_DELIVERY",
            Kind::SurrenderForAmendment => "SURRENDER_FOR_AMENDMENT",
            Kind::SurrenderAccepted => "SURRENDER_ACCEPTED",
            Kind::SurrenderRefused => "SURRENDER_REFUSED",
        }
    }
}
